// The lines that the round lister writes. Each function puts its bytes behind those that stand in the line, or none.
ghost use Rattle.std.specs.Prelude.{◌≡◌, [], ◌∷◌, ◌+◌, ◌%◌, take, MatchResult};
ghost use Rattle.tags.specs.Lists.{list_in};
ghost use Rattle.listing.specs.Write.{decimal_of, Put, fields_of, numbers_of, line_of};

use arrayvec::ArrayVec;

// The line has no room for all of the bytes; then it is left as it was.
#[derive(Clone, Copy, Debug)]
pub struct Full;

// The last digit of n, as a byte.
fn digit(n: u64) -> u8
    ensures { result ≡ 48 + n % 10 }
{
    (48 + n % 10) as u8
}

// Where the last part found no room, those put before it go too: the line keeps its first `len` bytes.
fn or_truncate<const N: usize>(
    put: Result<(), Full>,
    out: &mut ArrayVec<u8, N>,
    len: usize,
) -> Result<(), Full>
    ensures value { result ≡ put }
    ensures line { MatchResult put (λ _. out.new.items ≡ out.old.items) (λ _. out.new.items ≡ take len out.old.items) }
{
    if put.is_err() {
        out.truncate(len);
    }
    put
}

pub fn put_byte<const N: usize>(out: &mut ArrayVec<u8, N>, b: u8) -> Result<(), Full>
    ensures { Put N out.old.items out.new.items (b ∷ []) result }
{
    if out.is_full() {
        return Err(Full);
    }
    out.push(b);
    Ok(())
}

// n in decimal. It calls itself for the digits before the last: a u64 has 20 at most.
pub fn put_number<const N: usize>(out: &mut ArrayVec<u8, N>, n: u64) -> Result<(), Full>
    ensures { Put N out.old.items out.new.items (decimal_of n) result }
{
    let len = out.len();
    if 10 <= n {
        put_number(out, n / 10)?;
    }
    or_truncate(put_byte(out, digit(n)), out, len)
}

// A field after the first of its line: a space and n.
pub fn put_field<const N: usize>(out: &mut ArrayVec<u8, N>, n: u64) -> Result<(), Full>
    ensures { Put N out.old.items out.new.items (32 ∷ decimal_of n) result }
{
    let len = out.len();
    put_byte(out, b' ')?;
    or_truncate(put_number(out, n), out, len)
}

// Time, boundary and count, with which each round's line begins. A boundary is marked 1.
fn put_head<const N: usize>(
    out: &mut ArrayVec<u8, N>,
    ms: u64,
    boundary: bool,
    count: u64,
) -> Result<(), Full>
    ensures { Put N out.old.items out.new.items (fields_of (numbers_of ms boundary count [])) result }
{
    let len = out.len();
    put_number(out, ms)?;
    or_truncate(put_field(out, u64::from(boundary)), out, len)?;
    or_truncate(put_field(out, count), out, len)
}

// The line of a round.
pub fn put_line<const N: usize>(
    out: &mut ArrayVec<u8, N>,
    ms: u64,
    boundary: bool,
    list: &[u8],
) -> Result<(), Full>
    ensures { Put N out.old.items out.new.items (line_of ms boundary (list_in list.now)) result }
{
    let len = out.len();
    let count = tags::count(list);
    put_head(out, ms, boundary, count as u64)?;
    for i in 0..count {
        or_truncate(put_field(out, tags::at(list, i) as u64), out, len)?;
    }
    or_truncate(put_byte(out, b'\n'), out, len)
}
