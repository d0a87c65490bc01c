// A slice as halves: numbers below 65536, in two bytes each. Cells have the same two functions: one for both would take how
// a number of its width is loaded and stored, as closures, and clauses for these that are longer than the functions.
ghost use Rattle.std.specs.Prelude.{◌≡◌, ◌%◌, get_or, set};
ghost use Rattle.memory.specs.Halves.{halves_in};

use crate::bytes;

pub fn half(s: &[u8], i: usize) -> usize
    ensures { result ≡ get_or (halves_in s.now) i 0 }
{
    if i < s.len() / 2 {
        bytes::half(s, i)
    } else {
        0
    }
}

pub fn put_half(s: &mut [u8], i: usize, v: usize)
    ensures { halves_in s.new ≡ set (halves_in s.old) i (v % 65536) }
{
    if i < s.len() / 2 {
        bytes::put_half(s, i, v);
    }
}
