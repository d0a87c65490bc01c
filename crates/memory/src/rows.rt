// A slice as rows of 32 cells; cells past the last whole row are in none. The loops over a row are plain
// so that each compiles to one copy.
ghost use Rattle.std.specs.Prelude.{◌≡◌, get_or, set};
ghost use Rattle.memory.specs.Cells.{rows_in, no_row};

use crate::bytes;

pub fn row(s: &[u8], k: usize) -> [u64; 32]
    ensures { result ≡ get_or (rows_in s.now) k no_row }
{
    let mut w = [0u64; 32];
    if s.len() / 256 <= k {
        return w;
    }
    for j in 0..32 {
        w[j] = bytes::word(s, 32 * k + j);
    }
    w
}

pub fn put_row(s: &mut [u8], k: usize, w: [u64; 32])
    ensures { rows_in s.new ≡ set (rows_in s.old) k w }
{
    if s.len() / 256 <= k {
        return;
    }
    for j in 0..32 {
        bytes::put_word(s, 32 * k + j, w[j]);
    }
}

// One cell of a row, for loops over the rows that need no more of them.
pub fn row_cell(s: &[u8], k: usize, j: usize) -> u64
    ensures { result ≡ get_or (get_or (rows_in s.now) k no_row) j 0 }
{
    if k < s.len() / 256 && j < 32 {
        bytes::word(s, 32 * k + j)
    } else {
        0
    }
}

pub fn put_row_cell(s: &mut [u8], k: usize, j: usize, v: u64)
    ensures { rows_in s.new ≡ set (rows_in s.old) k (set (get_or (rows_in s.old) k no_row) j v) }
{
    if k < s.len() / 256 && j < 32 {
        bytes::put_word(s, 32 * k + j, v);
    }
}
