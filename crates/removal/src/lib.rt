// A tag taken out of a list, wherever it stands.
#![tactic(auto)]

ghost use Rattle.std.specs.Prelude.{◌≡◌, suc, ◌<◌, ◌++◌, length, take, drop};
ghost use Rattle.lists.specs.Keep.{without};
ghost use Rattle.tags.specs.Lists.{list_in};
ghost use Rattle.removal.specs.Places.{Placed};

use memory::{bytes, halves};
use tags::count;

// How many places hold a tag, and the sum of these places modulo 65536: of one place the place.
#[derive(Drop)]
struct Places {
    hits: u16,
    sum: u16,
}

// One loop without a branch, which a compiler makes vector code of.
fn places_of(s: &[u8], k: usize) -> Places
    ensures { Placed k (list_in s.now) result.hits result.sum }
{
    let mut hits: u16 = 0;
    let mut sum: u16 = 0;
    for i in 0..count(s) {
        let same = bytes::half(s, i + 1) == k;
        hits += same as u16;
        let here = if same { i as u16 } else { 0 };
        sum = sum.wrapping_add(here);
    }
    Places { hits, sum }
}

// The tags behind place p move down, byte by byte: a compiler makes one move of it.
fn remove_at(s: &mut [u8], p: usize)
    requires { p < length (list_in s.old) }
    ensures { list_in s.new ≡ take p (list_in s.old) ++ drop (suc p) (list_in s.old) }
{
    let n = count(s);
    for i in 2 * p + 2..2 * n {
        s[i] = s[i + 2];
    }
    halves::put_half(s, 0, n - 1);
}

// Any number of places with k: the others keep their order and move down, place j takes the next one that stays.
fn remove_each(s: &mut [u8], k: usize)
    ensures { list_in s.new ≡ without k (list_in s.old) }
{
    let mut j = 0;
    for i in 0..count(s) {
        let x = bytes::half(s, i + 1);
        if x != k {
            bytes::put_half(s, j + 1, x);
            j += 1;
        }
    }
    halves::put_half(s, 0, j);
}

// A list names a tag once at most, as long as nobody damaged it.
pub fn remove(s: &mut [u8], k: usize)
    ensures { list_in s.new ≡ without k (list_in s.old) }
{
    let found = places_of(s, k);
    match found.hits {
        0 => {}
        1 => remove_at(s, found.sum as usize),
        _ => remove_each(s, k),
    }
}
