// Lists that a host lends for writing: records one after the other, each of some cells of eight bytes, or tags of two bytes. What is
// written and what keeps its contents is said to the byte.
#![tactic(auto)]

pub mod changes;

ghost use Rattle.std.specs.Prelude.{◌≡◌};
ghost use Rattle.tags.specs.Lists.{list_in};
ghost use Rattle.lent.specs.Lent.{cell_put, record_put, tag_bytes, over_bytes, wrote_all};

use tags::{at, count};

// Cell i; past the last whole cell nothing is written. The crate memory stores a cell too, but promises cells, and here it is bytes.
pub fn put_cell(out: &mut [u8], i: usize, v: u64)
    ensures { out.new ≡ cell_put out.old i v }
{
    if out.len() / 8 <= i {
        return;
    }
    let p = 8 * i;
    out[p] = (v % 256) as u8;
    out[p + 1] = (v / 0x100 % 256) as u8;
    out[p + 2] = (v / 0x1_0000 % 256) as u8;
    out[p + 3] = (v / 0x100_0000 % 256) as u8;
    out[p + 4] = (v / 0x1_0000_0000 % 256) as u8;
    out[p + 5] = (v / 0x100_0000_0000 % 256) as u8;
    out[p + 6] = (v / 0x1_0000_0000_0000 % 256) as u8;
    out[p + 7] = (v / 0x100_0000_0000_0000 % 256) as u8;
}

// The cells of a record, from cell i on; one that has no room whole is not written.
pub fn put_record(out: &mut [u8], i: usize, cells: &[u64])
    ensures { out.new ≡ record_put out.old i cells.now }
{
    let size = out.len() / 8;
    if size < i || size - i < cells.len() {
        return;
    }
    for j in 0..cells.len() {
        put_cell(out, i + j, cells[j]);
    }
}

// The tags of a list, two bytes each; where there is no room for all of them nothing is written. Changes are written by a loop of
// their own: one for both would take a closure that writes, and what its bytes are, for a loop of three lines.
pub fn put_tags(out: &mut [u8], list: &[u8])
    ensures { out.new ≡ wrote_all out.old (tag_bytes (list_in list.now)) }
{
    let n = count(list);
    if out.len() / 2 < n {
        return;
    }
    for i in 0..n {
        let k = at(list, i);
        let p = 2 * i;
        out[p] = (k % 256) as u8;
        out[p + 1] = (k / 0x100 % 256) as u8;
    }
}

// Bytes over the first places of `out`, as many of them as it has room for.
pub fn put_bytes(out: &mut [u8], bytes: &[u8])
    ensures { out.new ≡ over_bytes out.old bytes.now }
{
    let n = if bytes.len() < out.len() {
        bytes.len()
    } else {
        out.len()
    };
    for j in 0..n {
        out[j] = bytes[j];
    }
}
