// Floats, signed integers and flags as words. Functions by name, since `From` between these types would be std's.
ghost use Rattle.std.specs.Prelude.{◌≡◌, ltb};
ghost use Rattle.std.specs.Float.{binary64};
ghost use Rattle.std.specs.Float.Ieee.{to_bits, of_bits};
ghost use Rattle.std.proofs.Common.{of_z, to_z};
ghost use Rattle.std.specs.Int.{w64};

// The bits of a float; of a NaN those of the one quiet NaN.
pub fn word_of_float(x: f64) -> u64
    ensures bits { result ≡ to_bits binary64 x }
    ensures back { of_bits binary64 result ≡ x }
{
    if x != x {
        0x7ff8_0000_0000_0000
    } else {
        f64::to_bits(x)
    }
}

// The float of any pattern of bits.
pub fn float_of_word(n: u64) -> f64
    ensures { result ≡ of_bits binary64 n }
{
    if 0x7ff0_0000_0000_0000 < n % 0x8000_0000_0000_0000 {
        return 0.0 / 0.0;
    }
    f64::from_bits(n)
}

// The bits of a signed integer.
pub fn word_of_int(x: i64) -> u64
    ensures bits { result ≡ of_z w64 x }
    ensures back { to_z w64 result ≡ x }
{
    if x < 0 {
        return !(!x as u64);
    }
    x as u64
}

// The signed integer of any pattern of bits.
pub fn int_of_word(n: u64) -> i64
    ensures { result ≡ to_z w64 n }
{
    if n < 0x8000_0000_0000_0000 {
        return n as i64;
    }
    !((0xffff_ffff_ffff_ffff - n) as i64)
}

pub fn word_of_flag(b: bool) -> u64
    ensures { ltb 0 result ≡ b }
{
    if b { 1 } else { 0 }
}
