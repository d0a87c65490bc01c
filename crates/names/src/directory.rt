// A directory: names as parts of the buffer, and checks 1 to 4.
ghost use Rattle.std.specs.Prelude.{◌≡◌, length};
ghost use Rattle.refusals.specs.Refusals.{code};
ghost use Rattle.names.specs.Directory.{piece, names_of, name_at, good_ends, good_bytes, rising, directory_check, max_names, max_name_length};

use crate::order::less;
use refusals::Refusal;

pub const MAX_NAMES: usize = 120;

pub const MAX_NAME_LENGTH: usize = 40;

// The lent names, joined, and where each ends.
#[derive(Clone, Copy)]
pub struct Directory<'a> {
    pub names: &'a [u8],
    pub ends: &'a [u32],
}

// The bytes from a start to an end, as many as there are.
pub fn part(s: &[u8], from: usize, end: usize) -> &[u8]
    ensures { result.now ≡ piece from end s.now }
{
    if end <= from || s.len() <= from {
        return &s[0..0];
    }
    if s.len() <= end {
        return &s[from..];
    }
    &s[from..end]
}

// Check 2, for a buffer of a size: an end place that isn't above the one before falls back or gives length 0.
pub fn good_ends(ends: &[u32], size: usize) -> bool
    ensures { result ≡ good_ends max_name_length 0 ends.now size }
{
    let mut at = 0;
    for place in ends {
        let end = *place as usize;
        if end <= at || size < end || MAX_NAME_LENGTH < end - at {
            return false;
        }
        at = end;
    }
    at == size
}

// Check 3, over the whole buffer at once.
pub fn good_bytes(names: &[u8]) -> bool
    ensures { result ≡ good_bytes names.now }
{
    for b in names {
        if *b < 33 || 126 < *b {
            return false;
        }
    }
    true
}

impl<'a> Directory<'a> {
    // How many names there are.
    pub fn count(self) -> usize
        ensures { result ≡ length (names_of self.entry.names.now self.entry.ends.now) }
    {
        self.ends.len()
    }

    // A tag's name; no bytes for a tag that the directory does not have.
    pub fn name(self, tag: usize) -> &'a [u8]
        ensures { result.now ≡ name_at self.entry.names.now self.entry.ends.now tag }
    {
        if self.ends.len() <= tag {
            return part(self.names, 0, 0);
        }
        let from = if tag == 0 {
            0
        } else {
            self.ends[tag - 1] as usize
        };
        part(self.names, from, self.ends[tag] as usize)
    }

    // Check 4.
    pub fn is_rising(self) -> bool
        ensures { result ≡ rising (names_of self.entry.names.now self.entry.ends.now) }
    {
        for i in 1..self.ends.len() {
            if !less(self.name(i - 1), self.name(i)) {
                return false;
            }
        }
        true
    }

    // Checks 1 to 4; the lowest that is met refuses.
    pub fn check(self) -> Result<(), Refusal>
        ensures { code result ≡ directory_check max_names max_name_length self.entry.names.now self.entry.ends.now }
    {
        if self.ends.len() == 0 || MAX_NAMES < self.ends.len() {
            return Err(Refusal::NameCount);
        }
        if !good_ends(self.ends, self.names.len()) {
            return Err(Refusal::NameEnds);
        }
        if !good_bytes(self.names) {
            return Err(Refusal::NameBytes);
        }
        if !self.is_rising() {
            return Err(Refusal::NameOrder);
        }
        Ok(())
    }
}
