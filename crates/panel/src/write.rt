// Writing the panel list.
ghost use Rattle.std.specs.Prelude.{◌≡◌, get_or};
ghost use Rattle.tags.specs.Lists.{list_in};
ghost use Rattle.table.specs.Table.{table_in};
ghost use Rattle.panel.specs.Panel.{panel_of, written, written_length};

use fields::tier_of;
use tags::{at, count};

// The byte of the list at p; 0 past its end.
fn byte_of(t: &[u8], order: &[u8], p: usize) -> u8
    ensures { result ≡ get_or (panel_of (table_in t.now) (list_in order.now)) p 0 }
{
    let n = count(order);
    if p == 0 {
        (n % 256) as u8
    } else if p <= n {
        (at(order, p - 1) % 256) as u8
    } else if p - n <= n {
        tier_of(t, at(order, p - n - 1))
    } else {
        0
    }
}

// The list at the start of `out`, and its length. Where `out` is too short nothing is written, and 0 is answered.
pub fn write_panel(t: &[u8], order: &[u8], out: &mut [u8]) -> usize
    ensures value { result ≡ written_length out.old (panel_of (table_in t.now) (list_in order.now)) }
    ensures out_after { out.new ≡ written out.old (panel_of (table_in t.now) (list_in order.now)) }
{
    let size = 1 + 2 * count(order);
    if out.len() < size {
        return 0;
    }
    for p in 0..size {
        out[p] = byte_of(t, order, p);
    }
    size
}
