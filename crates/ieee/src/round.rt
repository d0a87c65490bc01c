// Rule 4: rounding to whole with ties to even, the number of slices, and one decimal; and the two
// conversions between floats and whole numbers that the rules need.
ghost use Rattle.std.specs.Prelude.{◌≡◌};
ghost use Rattle.std.specs.Float.{binary64};
ghost use Rattle.std.specs.Float.Ieee.{of_int, to_unsigned};
ghost use Rattle.ieee.specs.Round.{round_ties_even, slices_of, round1_of};

use crate::casts;

// Rust's `round_ties_even`. A sum of 2^52 or more has no place for a fraction, so adding 2^52 to a
// smaller number rounds it to whole, with ties to even as every sum has them, and taking 2^52 off
// again is exact. From 2^52 on a float is whole already. The sign is handled apart, and a zero keeps
// its own.
pub fn round_ties_even(x: f64) -> f64
    ensures { result ≡ round_ties_even x }
{
    if x > 0.0 {
        if x < 4503599627370496.0 {
            (x + 4503599627370496.0) - 4503599627370496.0
        } else {
            x
        }
    } else if x < 0.0 {
        if x > -4503599627370496.0 {
            -((-x + 4503599627370496.0) - 4503599627370496.0)
        } else {
            x
        }
    } else {
        x
    }
}

// Rust's `x as u64`: toward zero, stopping at 0 and at 2^64 - 1, and 0 for a NaN.
pub fn to_u64(x: f64) -> u64
    ensures { result ≡ to_unsigned 64 x }
{
    if x > -1.0 {
        if x < 18446744073709551616.0 {
            casts::whole_part(x)
        } else {
            u64::MAX
        }
    } else {
        0
    }
}

// S, the number of slices in a tier-2 period.
pub fn slices(period: f64, cycle: f64) -> u64
    ensures { result ≡ slices_of period cycle }
{
    if cycle > 0.0 {
        let s = to_u64(round_ties_even(period / cycle));
        if s < 1 { 1 } else { s }
    } else {
        1
    }
}

pub fn round1(v: f64) -> f64
    ensures { result ≡ round1_of v }
{
    round_ties_even(v * 10.0) / 10.0
}

// Rust's `n as f64`: the nearest float, at a tie the even one.
pub fn from_i64(n: i64) -> f64
    ensures { result ≡ of_int binary64 n }
{
    casts::from_i64(n)
}
