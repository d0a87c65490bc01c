// A tag.
ghost use Rattle.std.specs.Prelude.{◌≡◌};
ghost use Rattle.board.specs.Layout.{IsBoard};
ghost use Rattle.board.specs.Board.{board_in, tag_at};
ghost use Rattle.shown.specs.Looks.{description_cell, tag_of, no_look, tag_found};

use board::tag::{cached_of, description_of, tier_of};
use table::tag::Description;
use words::entry::EntryWords;

// A tag's tier, 0 for none; its cached entry, held being 0 where there is none; and its description, 0 where it is not
// known, 1 where it has none, and otherwise the number and 2. has_g and g are cells of the entry that nothing uses yet.
#[repr(C)]
#[derive(Clone, Copy)]
pub struct TagLook {
    pub code: u64,
    pub tier: u64,
    pub held: u64,
    pub kind: u64,
    pub word: u64,
    pub t: u64,
    pub error: u64,
    pub message: u64,
    pub has_g: u64,
    pub g: u64,
    pub description: u64,
}

fn description_cell(d: Description) -> u64
    ensures { result ≡ description_cell d }
{
    match d {
        Description::Unknown => 0,
        Description::Nothing => 1,
        Description::Is(n) => n as u64 + 2,
    }
}

fn tag_of(board: &[u8], k: usize) -> TagLook
    requires { IsBoard board.now }
    ensures { result ≡ tag_of (tag_at (board_in board.now).table k) }
{
    let w = EntryWords::from(cached_of(board, k));
    TagLook {
        code: 0,
        tier: tier_of(board, k) as u64,
        held: w.held,
        kind: w.kind,
        word: w.word,
        t: w.t,
        error: w.error,
        message: w.message,
        has_g: 0,
        g: 0,
        description: description_cell(description_of(board, k)),
    }
}

pub fn no_look(code: u64) -> TagLook
    ensures { result ≡ no_look code }
{
    TagLook {
        code,
        tier: 0,
        held: 0,
        kind: 0,
        word: 0,
        t: 0,
        error: 0,
        message: 0,
        has_g: 0,
        g: 0,
        description: 0,
    }
}

// Check 23, then the tag: its tier, its cached entry and its description. `count` is how many tags there are.
pub fn tag(board: &[u8], count: u16, tag: u32) -> TagLook
    requires { IsBoard board.now }
    ensures { result ≡ tag_found (board_in board.now) count tag }
{
    if count as u32 <= tag {
        return no_look(23);
    }
    tag_of(board, tag as usize)
}
