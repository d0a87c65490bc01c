// Changes: for each tag of a list, the tag and the eight cells of its published entry.
ghost use Rattle.std.specs.Prelude.{◌≡◌};
ghost use Rattle.tags.specs.Lists.{list_in};
ghost use Rattle.table.specs.Table.{table_in};
ghost use Rattle.lent.specs.Lent.{record_put, cell_bytes, wrote_all, records};
ghost use Rattle.lent.specs.Changes.{change_cells};

use super::put_record;
use entries::published_of;
use tags::{at, count};
use words::entry::EntryWords;

// The bytes of a change.
pub const CHANGE: usize = 72;

fn put_change(out: &mut [u8], i: usize, table: &[u8], k: usize)
    ensures { out.new ≡ record_put out.old i (change_cells (table_in table.now) k) }
{
    let w = EntryWords::from(published_of(table, k));
    let cells = [
        k as u64, w.held, w.kind, w.word, w.t, w.error, w.message, 0, 0,
    ];
    put_record(out, i, &cells);
}

// Where there is no room for all of the records nothing is written.
pub fn put_changes(out: &mut [u8], table: &[u8], list: &[u8])
    ensures { out.new ≡ wrote_all out.old (cell_bytes (records (change_cells (table_in table.now)) (list_in list.now))) }
{
    let n = count(list);
    if out.len() / CHANGE < n {
        return;
    }
    for i in 0..n {
        put_change(out, 9 * i, table, at(list, i));
    }
}
