// Between floats and whole numbers, in plain steps that call nothing of std: `possible` runs this
// code, and has the text of this repository only.
ghost use Rattle.std.specs.Prelude.{◌≡◌, pos};
ghost use Rattle.std.specs.Float.{binary64, minus_one, two_to, ◌<ᶠ◌};
ghost use Rattle.std.specs.Float.Ieee.{of_int, to_unsigned};

// A whole number as a float. It may have more digits than a float has room for, but its upper and
// its lower 32 bits do not, also with the upper ones put back in their place. One step is left that
// can round, the addition.
pub(crate) fn from_u64(n: u64) -> f64
    ensures { result ≡ of_int binary64 (pos n) }
{
    let high = n / 4294967296;
    let low = n % 4294967296;
    (high as f64) * 4294967296.0 + (low as f64)
}

// A signed one: below zero by its magnitude, which is one more than that of n + 1, since the least
// number has a magnitude that is no i64.
pub(crate) fn from_i64(n: i64) -> f64
    ensures { result ≡ of_int binary64 n }
{
    if n < 0 {
        let short = (-(n + 1)) as u64;
        -from_u64(short + 1)
    } else {
        from_u64(n as u64)
    }
}

// The whole part of a float: its 53 digits, moved by what its exponent says. 1075 is the exponent
// at which they stand for themselves.
pub(crate) fn whole_part(x: f64) -> u64
    requires lower_bound { minus_one <ᶠ x }
    requires upper_bound { x <ᶠ two_to 64 }
    ensures { result ≡ to_unsigned 64 x }
{
    if x < 1.0 {
        return 0;
    }
    let bits = f64::to_bits(x);
    let exponent = bits / 4503599627370496;
    let digits = 4503599627370496 + bits % 4503599627370496;
    if exponent < 1075 {
        digits >> (1075 - exponent)
    } else {
        digits << (exponent - 1075)
    }
}
