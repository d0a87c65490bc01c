// The slice of a boundary round, and the index of the next.
ghost use Rattle.std.specs.Prelude.{◌≡◌, ◌++◌, ◌+◌, ◌-◌, ◌/◌, ◌≤◌, length};
ghost use Rattle.ieee.specs.Round.{slices_of};
ghost use Rattle.lists.specs.Slices.{slice, next};
ghost use Rattle.lists.specs.Sort.{by_keys};
ghost use Rattle.memory.specs.Halves.{halves_in};
ghost use Rattle.tags.specs.Lists.{list_in, room, fitted};
ghost use Rattle.table.specs.Table.{table_in};
ghost use Rattle.slices.specs.Slice.{tier2_tags, slice_taken, next_index};

use super::tier2::sort_tier2;
use ieee::round::slices;
use tags::{at, count, push};

// How many tags a slice has: n / s rounded up.
fn slice_size(n: u64, s: u64) -> u64
    requires { 1 ≤ s }
    ensures { result ≡ (n + (s - 1)) / s }
{
    if n == 0 { 0 } else { (n - 1) / s + 1 }
}

// Of S slices the one at an index, after what `list` has.
pub fn list_slice(sorted: &[u8], list: &mut [u8], period: f64, cycle: f64, index: u64)
    ensures { list_in list.new ≡ fitted (room list.old) (list_in list.old ++ slice (slices_of period cycle) (list_in sorted.now) index) }
{
    let n = count(sorted) as u64;
    let size = slice_size(n, slices(period, cycle));
    if size == 0 {
        return;
    }
    if n / size < index {
        return;
    }
    let start = index * size;
    let end = if n - start < size { n } else { start + size };
    for i in start..end {
        push(list, at(sorted, i as usize));
    }
}

// The index of the next boundary round.
pub fn next_index(sorted: &[u8], period: f64, cycle: f64, index: u64) -> u64
    ensures { result ≡ next (slices_of period cycle) (list_in sorted.now) index }
{
    if count(sorted) == 0 {
        return index;
    }
    let s = slices(period, cycle);
    (index % s + 1) % s
}

// At a boundary the slice goes after what `list` has, and the index moves on. `sorted` is a list to work in.
pub fn take_slice(
    t: &[u8],
    order: &[u8],
    keys: &[u8],
    sorted: &mut [u8],
    list: &mut [u8],
    period: f64,
    cycle: f64,
    index: u64,
    boundary: bool,
) -> u64
    requires { length (list_in order.now) ≤ room sorted.old }
    ensures value { result ≡ next_index boundary (slices_of period cycle) (tier2_tags (by_keys (halves_in keys.now)) (table_in t.now) (list_in order.now)) index }
    ensures list_after { list_in list.new ≡ fitted (room list.old) (list_in list.old ++ slice_taken boundary (slices_of period cycle) (tier2_tags (by_keys (halves_in keys.now)) (table_in t.now) (list_in order.now)) index) }
{
    if !boundary {
        return index;
    }
    sort_tier2(t, order, keys, sorted);
    list_slice(sorted, list, period, cycle, index);
    next_index(sorted, period, cycle, index)
}
