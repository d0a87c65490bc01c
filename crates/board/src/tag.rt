// The tag at k.
ghost use Rattle.std.specs.Prelude.{◌≡◌, get_or};
ghost use Rattle.table.specs.Table.{with_standing, with_after, with_description, without_last, without_readings};
ghost use Rattle.board.specs.Layout.{IsBoard};
ghost use Rattle.board.specs.Board.{Holds, tag_at, is_bit, board_in, with_tag};

use super::parts::{table_of, words_of};
use super::starts::{order_start, table_start};
use memory::halves::half;
use table::tag::{Description, Grace, Settings, Tag, Timing};
use values::entry::Entry;

pub fn tag_of(b: &[u8], k: usize) -> Tag
    requires { IsBoard b.now }
    ensures { result ≡ tag_at (board_in b.now).table k }
{
    table::tag_of(table_of(b), k)
}

pub fn tier_of(b: &[u8], k: usize) -> u8
    requires { IsBoard b.now }
    ensures { result ≡ (tag_at (board_in b.now).table k).tier }
{
    fields::tier_of(table_of(b), k)
}

pub fn grace_of(b: &[u8], k: usize) -> Option<Grace>
    requires { IsBoard b.now }
    ensures { result ≡ (tag_at (board_in b.now).table k).grace }
{
    fields::grace_of(table_of(b), k)
}

pub fn timing_of(b: &[u8], k: usize) -> Timing
    requires { IsBoard b.now }
    ensures { result ≡ (tag_at (board_in b.now).table k).timing }
{
    fields::timing_of(table_of(b), k)
}

pub fn added_of(b: &[u8], k: usize) -> bool
    requires { IsBoard b.now }
    ensures { result ≡ (tag_at (board_in b.now).table k).added }
{
    fields::added_of(table_of(b), k)
}

pub fn wants_of(b: &[u8], k: usize) -> bool
    requires { IsBoard b.now }
    ensures { result ≡ (tag_at (board_in b.now).table k).wants }
{
    fields::wants_of(table_of(b), k)
}

pub fn description_of(b: &[u8], k: usize) -> Description
    requires { IsBoard b.now }
    ensures { result ≡ (tag_at (board_in b.now).table k).description }
{
    fields::description_of(table_of(b), k)
}

pub fn settings_of(b: &[u8], k: usize) -> Settings
    requires { IsBoard b.now }
    ensures { result ≡ (tag_at (board_in b.now).table k).settings }
{
    fields::settings_of(table_of(b), k)
}

pub fn cached_of(b: &[u8], k: usize) -> Option<Entry>
    requires { IsBoard b.now }
    ensures { result ≡ (tag_at (board_in b.now).table k).cached }
{
    entries::cached_of(table_of(b), k)
}

// 0 for a tag that is no bit, 1 for a bit whose word the directory lacks, and otherwise the word's tag and 2.
pub fn word_of(b: &[u8], k: usize) -> usize
    requires { IsBoard b.now }
    ensures { result ≡ get_or (board_in b.now).table.words k 0 }
{
    half(words_of(b), k)
}

pub fn is_bit(b: &[u8], k: usize) -> bool
    requires { IsBoard b.now }
    ensures { result ≡ is_bit (board_in b.now).table k }
{
    word_of(b, k) != 0
}

// Here and below the bounds are worked out first: a range of `b` that is lent to be written borrows all of `b`.
pub fn put_tag(b: &mut [u8], k: usize, x: Tag)
    requires { IsBoard b.old }
    ensures { Holds b.new (with_tag (board_in b.old) k x) }
{
    let start = table_start(b);
    let end = order_start(b);
    table::put_tag(&mut b[start..end], k, x);
}

// Tier and grace, whether the tag is new in tier 2, and whether its description is wanted.
pub fn put_standing(b: &mut [u8], k: usize, tier: u8, g: Option<Grace>, added: bool, wants: bool)
    requires { IsBoard b.old }
    ensures { Holds b.new (with_tag (board_in b.old) k (with_standing (tag_at (board_in b.old).table k) tier g added wants)) }
{
    let start = table_start(b);
    let end = order_start(b);
    fields::put_standing(&mut b[start..end], k, tier, g, added, wants);
}

// The last reading time is forgotten.
pub fn forget_last(b: &mut [u8], k: usize)
    requires { IsBoard b.old }
    ensures { Holds b.new (with_tag (board_in b.old) k (without_last (tag_at (board_in b.old).table k))) }
{
    let start = table_start(b);
    let end = order_start(b);
    fields::forget_last(&mut b[start..end], k);
}

// The tag is in grace, and a tier follows it.
pub fn put_after(b: &mut [u8], k: usize, after: u8)
    requires { IsBoard b.old }
    ensures { Holds b.new (with_tag (board_in b.old) k (with_after (tag_at (board_in b.old).table k) after)) }
{
    let start = table_start(b);
    let end = order_start(b);
    fields::put_after(&mut b[start..end], k, after);
}

// What is known of the tag's description.
pub fn put_description(b: &mut [u8], k: usize, d: Description)
    requires { IsBoard b.old }
    ensures { Holds b.new (with_tag (board_in b.old) k (with_description (tag_at (board_in b.old).table k) d)) }
{
    let start = table_start(b);
    let end = order_start(b);
    fields::put_description(&mut b[start..end], k, d);
}

// Last reading time, missing mark and both entries are forgotten.
pub fn forget(b: &mut [u8], k: usize)
    requires { IsBoard b.old }
    ensures { Holds b.new (with_tag (board_in b.old) k (without_readings (tag_at (board_in b.old).table k))) }
{
    let start = table_start(b);
    let end = order_start(b);
    entries::forget(&mut b[start..end], k);
}
