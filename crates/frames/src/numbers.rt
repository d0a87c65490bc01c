// Numbers at any place of a frame, the low byte first.
ghost use Rattle.std.specs.Prelude.{◌≡◌, ◌+◌, ◌≤◌, ◌<◌, length, take, drop, MatchOption};
ghost use Rattle.frames.specs.Numbers.{four_at, eight_at};

// The N bytes at a place; none where the slice ends before they do.
fn bytes_at<const N: usize>(s: &[u8], at: usize) -> Option<&[u8; N]>
    ensures { MatchOption result (length s.now < at + N) (λ b. (at + N ≤ length s.now) × (b.now ≡ take N (drop at s.now))) }
{
    s.get(at..)?.first_chunk()
}

// The number of four bytes at a place.
pub fn four(s: &[u8], at: usize) -> usize
    ensures { (result ≡ four_at s.now at) × (result < 0x1_0000_0000) }
{
    bytes_at(s, at).map_or(0, |b| u32::from_le_bytes(*b) as usize)
}

// The number of eight bytes at a place.
pub fn eight(s: &[u8], at: usize) -> u64
    ensures { result ≡ eight_at s.now at }
{
    bytes_at(s, at).map_or(0, |b| u64::from_le_bytes(*b))
}
