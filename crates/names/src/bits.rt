// The name of a bit: its word, a dot and digits.
ghost use Rattle.std.specs.Prelude.{◌≡◌, drop};
ghost use Rattle.names.specs.Bits.{last_dot, all_digits, split_bit};

// The place of the last dot, 0 if there is none: a dot at place 0 has no word before it either.
pub fn last_dot(s: &[u8]) -> usize
    ensures { result ≡ last_dot 0 0 s.now }
{
    let mut last = 0;
    for i in 0..s.len() {
        if s[i] == b'.' {
            last = i;
        }
    }
    last
}

// Whether all bytes from a place on are digits.
pub fn digits_from(s: &[u8], from: usize) -> bool
    ensures { result ≡ all_digits (drop from s.now) }
{
    for i in from..s.len() {
        if s[i] < b'0' || b'9' < s[i] {
            return false;
        }
    }
    true
}

// How long the word of a bit is; none if the name is no bit's.
pub fn split_bit(s: &[u8]) -> Option<usize>
    ensures { result ≡ split_bit s.now }
{
    let dot = last_dot(s);
    if 0 < dot && dot + 1 < s.len() && digits_from(s, dot + 1) {
        Some(dot)
    } else {
        None
    }
}
