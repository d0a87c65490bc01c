// The entries of the tag at k, cached and published: six words of its row each.
#![tactic(auto)]

ghost use Rattle.std.specs.Prelude.{◌≡◌, get_or, set, ◌<◌};
ghost use Rattle.memory.specs.Cells.{rows_in, no_row};
ghost use Rattle.words.specs.Entry.{held_from};
ghost use Rattle.table.specs.Tag.{fresh_tag};
ghost use Rattle.table.specs.Row.{entry_words_at, with_entry_words};
ghost use Rattle.table.specs.Table.{table_in, with_cached, with_published, without_readings};

use memory::rows::{put_row_cell, row_cell};
use values::entry::Entry;
use words::entry::{EntryWords, held_from};

// The first cells of the two entries in a row.
const CACHED: usize = 16;

const PUBLISHED: usize = 24;

// The six words of an entry, from the cell `first` on.
fn words_at(t: &[u8], k: usize, first: usize) -> EntryWords
    requires { first < 27 }
    ensures { result ≡ entry_words_at (get_or (rows_in t.now) k no_row) first }
{
    EntryWords {
        held: row_cell(t, k, first),
        kind: row_cell(t, k, first + 1),
        word: row_cell(t, k, first + 2),
        t: row_cell(t, k, first + 3),
        error: row_cell(t, k, first + 4),
        message: row_cell(t, k, first + 5),
    }
}

// The cached entry as it stands in memory, for a look at it that needs no entry.
pub fn cached_words(t: &[u8], k: usize) -> EntryWords
    ensures { held_from result ≡ (get_or (table_in t.now) k fresh_tag).cached }
{
    words_at(t, k, CACHED)
}

pub fn cached_of(t: &[u8], k: usize) -> Option<Entry>
    ensures { result ≡ (get_or (table_in t.now) k fresh_tag).cached }
{
    held_from(cached_words(t, k))
}

pub fn published_of(t: &[u8], k: usize) -> Option<Entry>
    ensures { result ≡ (get_or (table_in t.now) k fresh_tag).published }
{
    held_from(words_at(t, k, PUBLISHED))
}

fn put_words(t: &mut [u8], k: usize, first: usize, w: EntryWords)
    requires { first < 27 }
    ensures { rows_in t.new ≡ set (rows_in t.old) k (with_entry_words (get_or (rows_in t.old) k no_row) first w) }
{
    put_row_cell(t, k, first, w.held);
    put_row_cell(t, k, first + 1, w.kind);
    put_row_cell(t, k, first + 2, w.word);
    put_row_cell(t, k, first + 3, w.t);
    put_row_cell(t, k, first + 4, w.error);
    put_row_cell(t, k, first + 5, w.message);
}

pub fn put_cached(t: &mut [u8], k: usize, e: Entry)
    ensures { table_in t.new ≡ set (table_in t.old) k (with_cached (get_or (table_in t.old) k fresh_tag) e) }
{
    put_words(t, k, CACHED, EntryWords::from(e));
}

pub fn put_published(t: &mut [u8], k: usize, e: Entry)
    ensures { table_in t.new ≡ set (table_in t.old) k (with_published (get_or (table_in t.old) k fresh_tag) e) }
{
    put_words(t, k, PUBLISHED, EntryWords::from(e));
}

// Last reading time, missing mark and both entries are forgotten. A 0 in its first cell is none of each.
pub fn forget(t: &mut [u8], k: usize)
    ensures { table_in t.new ≡ set (table_in t.old) k (without_readings (get_or (table_in t.old) k fresh_tag)) }
{
    put_row_cell(t, k, 4, 0);
    put_row_cell(t, k, 6, 0);
    put_row_cell(t, k, CACHED, 0);
    put_row_cell(t, k, PUBLISHED, 0);
}
