// A slice as cells of eight bytes; bytes past the last whole cell are in none.
ghost use Rattle.std.specs.Prelude.{◌≡◌, ◌-◌, ◌/◌, ◌≤◌, length, get_or, set};
ghost use Rattle.memory.specs.Cells.{cells_in};

use crate::bytes;

pub fn cell(s: &[u8], i: usize) -> u64
    ensures { result ≡ get_or (cells_in s.now) i 0 }
{
    if i < s.len() / 8 {
        bytes::word(s, i)
    } else {
        0
    }
}

pub fn put_cell(s: &mut [u8], i: usize, v: u64)
    ensures { cells_in s.new ≡ set (cells_in s.old) i v }
{
    if i < s.len() / 8 {
        bytes::put_word(s, i, v);
    }
}

// How many places of so many cells there are behind the first cell, which counts them.
pub fn places(s: &[u8], size: usize) -> usize
    requires { 1 ≤ size }
    ensures { result ≡ (length s.now / 8 - 1) / size }
{
    let cells = s.len() / 8;
    if cells == 0 { 0 } else { (cells - 1) / size }
}
