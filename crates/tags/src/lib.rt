// Lists of tag numbers in halves: the count, then the places. Any bytes are some list.
#![tactic(auto)]

ghost use Rattle.std.specs.Prelude.{◌≡◌, [], ◌%◌, length, get_or, take};
ghost use Rattle.tags.specs.Lists.{list_in, room, pushed, inserted_at, member};

use memory::{bytes, halves};

// The stored count; where that is above the places there are, all of them. It is the lesser of the two in so many
// words, so that a compiler knows that a place below it is within the slice.
pub fn count(s: &[u8]) -> usize
    ensures { result ≡ length (list_in s.now) }
{
    let size = s.len() / 2;
    if size == 0 {
        return 0;
    }
    let n = halves::half(s, 0);
    let places = size - 1;
    if n < places { n } else { places }
}

// How many tags the slice has room for; the count has to fit its half too.
pub fn room_of(s: &[u8]) -> usize
    ensures { result ≡ room s.now }
{
    let size = s.len() / 2;
    if size == 0 {
        return 0;
    }
    if size - 1 < 65535 { size - 1 } else { 65535 }
}

pub fn at(s: &[u8], i: usize) -> usize
    ensures { result ≡ get_or (list_in s.now) i 0 }
{
    if i < count(s) {
        halves::half(s, i + 1)
    } else {
        0
    }
}

pub fn clear(s: &mut [u8])
    ensures { list_in s.new ≡ [] }
{
    halves::put_half(s, 0, 0);
}

// One tag more at the end; a full list stays.
pub fn push(s: &mut [u8], k: usize)
    ensures { list_in s.new ≡ pushed (room s.old) (list_in s.old) (k % 65536) }
{
    let n = count(s);
    if n < room_of(s) {
        halves::put_half(s, n + 1, k);
        halves::put_half(s, 0, n + 1);
    }
}

// The first n tags stay.
pub fn shorten(s: &mut [u8], n: usize)
    ensures { list_in s.new ≡ take n (list_in s.old) }
{
    if n < count(s) {
        halves::put_half(s, 0, n);
    }
}

pub fn contains(s: &[u8], k: usize) -> bool
    ensures { result ≡ member k (list_in s.now) }
{
    for i in 0..count(s) {
        if bytes::half(s, i + 1) == k {
            return true;
        }
    }
    false
}

// One tag more at place p: each from p on takes the place of the next. A full list stays, and so does one
// that ends before p.
pub fn insert_at(s: &mut [u8], p: usize, k: usize)
    ensures { list_in s.new ≡ inserted_at (room s.old) p (k % 65536) (list_in s.old) }
{
    let n = count(s);
    if n < p || room_of(s) <= n {
        return;
    }
    let mut x = k;
    for i in p..n {
        let next = bytes::half(s, i + 1);
        bytes::put_half(s, i + 1, x);
        x = next;
    }
    bytes::put_half(s, n + 1, x);
    bytes::put_half(s, 0, n + 1);
}
