// Where the parts begin: each behind the one before it.
ghost use Rattle.std.specs.Prelude.{◌≡◌, ◌≤◌};
ghost use Rattle.layout.specs.Parts.{start_of};
ghost use Rattle.names.specs.Directory.{max_names};
ghost use Rattle.board.specs.Layout.{IsBoard, board_size, is_board_size, tags_in, sizes, recorded, configured, queue, groups, table, order, graces, asked, keys, words};

use names::directory::MAX_NAMES;

// The parts before the table, which are as long for any number of tags.
const BACK: usize = 256;

const RECORDED: usize = 64;

const CONFIGURED: usize = 512;

const QUEUE: usize = 1024;

const GROUPS: usize = 1024;

// The parts behind them: a row, and two bytes in each list. A list of tags has two bytes for its count.
const ROW: usize = 256;

const NUMBER: usize = 2;

// All of them: with no tag, and what each tag adds.
const FIXED: usize = BACK + RECORDED + CONFIGURED + QUEUE + GROUPS + 3 * NUMBER;

const PER_TAG: usize = ROW + 5 * NUMBER;

// How many bytes a board for so many tags has.
pub fn size_for(count: usize) -> usize
    requires { count ≤ max_names }
    ensures { result ≡ board_size count }
{
    FIXED + PER_TAG * count
}

// Whether a board has n bytes.
pub fn is_board_size(n: usize) -> bool
    ensures { result ≡ is_board_size n }
{
    if n < FIXED {
        return false;
    }
    let tags = (n - FIXED) / PER_TAG;
    tags != 0 && tags <= MAX_NAMES && n == FIXED + PER_TAG * tags
}

// How many tags the board is for.
pub fn tags_in(b: &[u8]) -> usize
    requires { IsBoard b.now }
    ensures { result ≡ tags_in b.now }
{
    (b.len() - FIXED) / PER_TAG
}

pub fn recorded_start(b: &[u8]) -> usize
    requires { IsBoard b.now }
    ensures { result ≡ start_of (sizes (tags_in b.now)) recorded }
{
    BACK
}

pub fn configured_start(b: &[u8]) -> usize
    requires { IsBoard b.now }
    ensures { result ≡ start_of (sizes (tags_in b.now)) configured }
{
    recorded_start(b) + RECORDED
}

pub fn queue_start(b: &[u8]) -> usize
    requires { IsBoard b.now }
    ensures { result ≡ start_of (sizes (tags_in b.now)) queue }
{
    configured_start(b) + CONFIGURED
}

pub fn groups_start(b: &[u8]) -> usize
    requires { IsBoard b.now }
    ensures { result ≡ start_of (sizes (tags_in b.now)) groups }
{
    queue_start(b) + QUEUE
}

pub fn table_start(b: &[u8]) -> usize
    requires { IsBoard b.now }
    ensures { result ≡ start_of (sizes (tags_in b.now)) table }
{
    groups_start(b) + GROUPS
}

pub fn order_start(b: &[u8]) -> usize
    requires { IsBoard b.now }
    ensures { result ≡ start_of (sizes (tags_in b.now)) order }
{
    table_start(b) + ROW * tags_in(b)
}

pub fn graces_start(b: &[u8]) -> usize
    requires { IsBoard b.now }
    ensures { result ≡ start_of (sizes (tags_in b.now)) graces }
{
    order_start(b) + NUMBER * tags_in(b) + NUMBER
}

pub fn asked_start(b: &[u8]) -> usize
    requires { IsBoard b.now }
    ensures { result ≡ start_of (sizes (tags_in b.now)) asked }
{
    graces_start(b) + NUMBER * tags_in(b) + NUMBER
}

pub fn keys_start(b: &[u8]) -> usize
    requires { IsBoard b.now }
    ensures { result ≡ start_of (sizes (tags_in b.now)) keys }
{
    asked_start(b) + NUMBER * tags_in(b) + NUMBER
}

pub fn words_start(b: &[u8]) -> usize
    requires { IsBoard b.now }
    ensures { result ≡ start_of (sizes (tags_in b.now)) words }
{
    keys_start(b) + NUMBER * tags_in(b)
}
