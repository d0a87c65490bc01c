// Parts of the tag at k, read and written with no more of its row than they need; `entries` has its two entries.
#![tactic(auto)]

ghost use Rattle.std.specs.Prelude.{◌≡◌, get_or, set};
ghost use Rattle.table.specs.Tag.{fresh_tag};
ghost use Rattle.table.specs.Table.{table_in, with_last, with_mark, with_added, with_wants, with_description, with_after, with_standing, without_last};

use memory::rows::{put_row_cell, row_cell};
use table::codec::{
    GraceWords, description_from, description_word, grace_from, settings_from, timing_from,
};
use table::tag::{Description, Grace, Settings, Timing};
use words::scalar::{word_of_flag, word_of_float};
use words::time::TimeWords;

pub fn tier_of(t: &[u8], k: usize) -> u8
    ensures { result ≡ (get_or (table_in t.now) k fresh_tag).tier }
{
    (row_cell(t, k, 0) % 256) as u8
}

pub fn grace_of(t: &[u8], k: usize) -> Option<Grace>
    ensures { result ≡ (get_or (table_in t.now) k fresh_tag).grace }
{
    grace_from(row_cell(t, k, 1), row_cell(t, k, 2), row_cell(t, k, 3))
}

pub fn timing_of(t: &[u8], k: usize) -> Timing
    ensures { result ≡ (get_or (table_in t.now) k fresh_tag).timing }
{
    timing_from(
        row_cell(t, k, 4),
        row_cell(t, k, 5),
        row_cell(t, k, 6),
        row_cell(t, k, 7),
    )
}

pub fn added_of(t: &[u8], k: usize) -> bool
    ensures { result ≡ (get_or (table_in t.now) k fresh_tag).added }
{
    0 < row_cell(t, k, 8)
}

pub fn wants_of(t: &[u8], k: usize) -> bool
    ensures { result ≡ (get_or (table_in t.now) k fresh_tag).wants }
{
    0 < row_cell(t, k, 9)
}

pub fn description_of(t: &[u8], k: usize) -> Description
    ensures { result ≡ (get_or (table_in t.now) k fresh_tag).description }
{
    description_from(row_cell(t, k, 10))
}

pub fn settings_of(t: &[u8], k: usize) -> Settings
    ensures { result ≡ (get_or (table_in t.now) k fresh_tag).settings }
{
    settings_from(
        row_cell(t, k, 11),
        row_cell(t, k, 12),
        row_cell(t, k, 13),
        row_cell(t, k, 14),
        row_cell(t, k, 15),
    )
}

// The last reading time set.
pub fn put_last(t: &mut [u8], k: usize, clock: f64)
    ensures { table_in t.new ≡ set (table_in t.old) k (with_last (get_or (table_in t.old) k fresh_tag) clock) }
{
    put_row_cell(t, k, 4, 1);
    put_row_cell(t, k, 5, word_of_float(clock));
}

// The missing mark set with its retry time, or cleared.
pub fn put_mark(t: &mut [u8], k: usize, retry: Option<f64>)
    ensures { table_in t.new ≡ set (table_in t.old) k (with_mark (get_or (table_in t.old) k fresh_tag) retry) }
{
    let w = TimeWords::from(retry);
    put_row_cell(t, k, 6, w.known);
    put_row_cell(t, k, 7, w.word);
}

// Whether the tag is new in tier 2.
pub fn put_added(t: &mut [u8], k: usize, added: bool)
    ensures { table_in t.new ≡ set (table_in t.old) k (with_added (get_or (table_in t.old) k fresh_tag) added) }
{
    put_row_cell(t, k, 8, word_of_flag(added));
}

// Whether the tag's description is to be asked for.
pub fn put_wants(t: &mut [u8], k: usize, wants: bool)
    ensures { table_in t.new ≡ set (table_in t.old) k (with_wants (get_or (table_in t.old) k fresh_tag) wants) }
{
    put_row_cell(t, k, 9, word_of_flag(wants));
}

// What is known of the tag's description.
pub fn put_description(t: &mut [u8], k: usize, d: Description)
    ensures { table_in t.new ≡ set (table_in t.old) k (with_description (get_or (table_in t.old) k fresh_tag) d) }
{
    put_row_cell(t, k, 10, description_word(d));
}

// Tier and grace, whether the tag is new in tier 2, and whether its description is wanted.
pub fn put_standing(t: &mut [u8], k: usize, tier: u8, g: Option<Grace>, added: bool, wants: bool)
    ensures { table_in t.new ≡ set (table_in t.old) k (with_standing (get_or (table_in t.old) k fresh_tag) tier g added wants) }
{
    let w = GraceWords::from(g);
    let new = word_of_flag(added);
    put_row_cell(t, k, 0, tier as u64);
    put_row_cell(t, k, 1, w.on);
    put_row_cell(t, k, 2, w.deadline);
    put_row_cell(t, k, 3, w.after);
    put_row_cell(t, k, 8, new);
    put_row_cell(t, k, 9, word_of_flag(wants));
}

// The last reading time is forgotten.
pub fn forget_last(t: &mut [u8], k: usize)
    ensures { table_in t.new ≡ set (table_in t.old) k (without_last (get_or (table_in t.old) k fresh_tag)) }
{
    put_row_cell(t, k, 4, 0);
}

// The tag is in grace, and a tier follows it.
pub fn put_after(t: &mut [u8], k: usize, after: u8)
    ensures { table_in t.new ≡ set (table_in t.old) k (with_after (get_or (table_in t.old) k fresh_tag) after) }
{
    if row_cell(t, k, 1) == 0 {
        put_row_cell(t, k, 1, 1);
        put_row_cell(t, k, 2, 0);
    }
    put_row_cell(t, k, 3, after as u64);
}
