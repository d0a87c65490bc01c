// Numbers as bytes, the low byte first. A half and a word each have functions of their own: one function for any count of
// bytes would have a loop, a bound on the count and powers of 256, where these say it in a line for each byte.
ghost use Rattle.std.specs.Prelude.{◌≡◌, ◌+◌, ◌<◌, ◌/◌, ◌%◌, length, get_or, set};
ghost use Rattle.memory.specs.Cells.{quad_at, cells_in};
ghost use Rattle.memory.specs.Halves.{halves_in};

fn wide(x: u8) -> u64
    ensures { (result ≡ x % 256) × (result < 256) }
{
    x as u64
}

// The four bytes from `at` on.
fn quad(s: &[u8], at: usize) -> u64
    requires { at + 3 < length s.now }
    ensures { (result ≡ quad_at s.now at) × (result < 0x1_0000_0000) }
{
    wide(s[at])
        + wide(s[at + 1]) * 0x100
        + wide(s[at + 2]) * 0x1_0000
        + wide(s[at + 3]) * 0x100_0000
}

pub fn word(s: &[u8], i: usize) -> u64
    requires { i < length s.now / 8 }
    ensures { result ≡ get_or (cells_in s.now) i 0 }
{
    quad(s, 8 * i) + quad(s, 8 * i + 4) * 0x1_0000_0000
}

pub fn put_word(s: &mut [u8], i: usize, v: u64)
    requires { i < length s.old / 8 }
    ensures { cells_in s.new ≡ set (cells_in s.old) i v }
{
    let at = 8 * i;
    s[at] = (v % 256) as u8;
    s[at + 1] = (v / 0x100 % 256) as u8;
    s[at + 2] = (v / 0x1_0000 % 256) as u8;
    s[at + 3] = (v / 0x100_0000 % 256) as u8;
    s[at + 4] = (v / 0x1_0000_0000 % 256) as u8;
    s[at + 5] = (v / 0x100_0000_0000 % 256) as u8;
    s[at + 6] = (v / 0x1_0000_0000_0000 % 256) as u8;
    s[at + 7] = (v / 0x100_0000_0000_0000 % 256) as u8;
}

pub fn half(s: &[u8], i: usize) -> usize
    requires { i < length s.now / 2 }
    ensures { result ≡ get_or (halves_in s.now) i 0 }
{
    let at = 2 * i;
    (wide(s[at]) + wide(s[at + 1]) * 0x100) as usize
}

pub fn put_half(s: &mut [u8], i: usize, v: usize)
    requires { i < length s.old / 2 }
    ensures { halves_in s.new ≡ set (halves_in s.old) i (v % 65536) }
{
    let at = 2 * i;
    s[at] = (v % 256) as u8;
    s[at + 1] = (v / 0x100 % 256) as u8;
}
