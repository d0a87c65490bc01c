// What differs between two lists.
ghost use Rattle.std.specs.Prelude.{◌≡◌, length, replicate};
ghost use Rattle.frames.specs.Compare.{parting, unlike};

// The first place at which the two differ, or the end of the shorter one.
pub fn parting(a: &[u8], b: &[u8]) -> usize
    ensures { result ≡ parting 0 a.now b.now }
{
    a.iter()
        .zip(b)
        .position(|(x, y)| *x != *y)
        .unwrap_or(a.len().min(b.len()))
}

// The first place that has another byte than b, or the end.
pub fn unlike(s: &[u8], b: u8) -> usize
    ensures { result ≡ unlike 0 s.now b }
{
    s.iter().position(|x| *x != b).unwrap_or(s.len())
}

// All of s becomes b.
pub fn fill(s: &mut [u8], b: u8)
    ensures { s.new ≡ replicate (length s.old) b }
{
    s.fill(b);
}
