// Lists within a frame, each behind its length of four bytes; and a frame that is read from its front to its end.
ghost use Rattle.std.specs.Prelude.{◌≡◌, ◌↔◌, ◌+◌, ◌≤◌, ◌<◌, length, take, drop, IsSome, IfSome, MatchResult};
ghost use Rattle.frames.specs.Numbers.{four_at, eight_at};

use crate::numbers::{eight, four};

// The list whose length stands at a place; none where the frame ends before the list does.
pub fn list_at(s: &[u8], at: usize) -> Option<&[u8]>
    ensures whole { IsSome result ↔ (at + 4 + four_at s.now at ≤ length s.now) }
    ensures bytes { IfSome result (λ l. l.now ≡ take (four_at s.now at) (drop (at + 4) s.now)) }
{
    let n = four(s, at);
    let rest = s.get(at..)?.get(4..)?;
    rest.get(..n)
}

// The frame ends before what is looked for in it, or goes on behind its end.
#[derive(Clone, Copy, Debug)]
pub struct Malformed;

// What is left to read of a frame.
#[derive(Clone, Copy)]
pub struct Reader<'a> {
    pub rest: &'a [u8],
}

impl<'a> Reader<'a> {
    pub fn new(frame: &'a [u8]) -> Reader<'a>
        ensures { result.rest.now ≡ frame.now }
    {
        Reader { rest: frame }
    }

    fn pass(&mut self, n: usize) -> Result<(), Malformed>
        ensures { MatchResult result (λ _. (n ≤ length self.old.rest.now) × (self.new.rest.now ≡ drop n self.old.rest.now)) (λ _. (length self.old.rest.now < n) × (self.new.rest.now ≡ self.old.rest.now)) }
    {
        self.rest = self.rest.get(n..).ok_or(Malformed)?;
        Ok(())
    }

    pub fn four(&mut self) -> Result<usize, Malformed>
        ensures { MatchResult result (λ n. (4 ≤ length self.old.rest.now) × (n ≡ four_at self.old.rest.now 0) × (self.new.rest.now ≡ drop 4 self.old.rest.now)) (λ _. (length self.old.rest.now < 4) × (self.new.rest.now ≡ self.old.rest.now)) }
    {
        let n = four(self.rest, 0);
        self.pass(4)?;
        Ok(n)
    }

    pub fn eight(&mut self) -> Result<u64, Malformed>
        ensures { MatchResult result (λ n. (8 ≤ length self.old.rest.now) × (n ≡ eight_at self.old.rest.now 0) × (self.new.rest.now ≡ drop 8 self.old.rest.now)) (λ _. (length self.old.rest.now < 8) × (self.new.rest.now ≡ self.old.rest.now)) }
    {
        let n = eight(self.rest, 0);
        self.pass(8)?;
        Ok(n)
    }

    pub fn list(&mut self) -> Result<&'a [u8], Malformed>
        ensures { MatchResult result (λ l. (4 + length l.now ≤ length self.old.rest.now) × (length l.now ≡ four_at self.old.rest.now 0) × (l.now ≡ take (length l.now) (drop 4 self.old.rest.now)) × (self.new.rest.now ≡ drop (4 + length l.now) self.old.rest.now)) (λ _. (length self.old.rest.now < 4 + four_at self.old.rest.now 0) × (self.new.rest.now ≡ self.old.rest.now)) }
    {
        let list = list_at(self.rest, 0).ok_or(Malformed)?;
        self.pass(4 + list.len())?;
        Ok(list)
    }
}
