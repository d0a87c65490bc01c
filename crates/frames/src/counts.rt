// How far a replay has come.
ghost use Rattle.std.specs.Prelude.{◌≡◌};
ghost use Rattle.frames.specs.Counts.{next, compared};

use crate::calls::Call;
use std::fmt;

// `here` counts the calls of the history. The greatest number stands for all above it.
#[derive(Clone, Copy, Default)]
pub struct Counts {
    pub histories: u64,
    pub calls: u64,
    pub here: u64,
    pub bytes: u64,
}

impl Counts {
    // One call more, or a frame that names none; a creation begins a history.
    pub fn next(self, call: Option<Call>) -> Counts
        ensures { result ≡ next self call }
    {
        let begins = matches!(call, Some(Call::Create));
        Counts {
            histories: self.histories.saturating_add(u64::from(begins)),
            calls: self.calls.saturating_add(1),
            here: if begins {
                1
            } else {
                self.here.saturating_add(1)
            },
            ..self
        }
    }

    // So many bytes more.
    pub fn compared(self, n: usize) -> Counts
        ensures { result ≡ compared self n }
    {
        Counts {
            bytes: self.bytes.saturating_add(n as u64),
            ..self
        }
    }
}

// The place that the replay has come to.
impl fmt::Display for Counts {
    fn fmt<W: fmt::Write>(&self, f: &mut fmt::Formatter<W>) -> fmt::Result {
        write!(f, "history {}, call {}", self.histories, self.here)
    }
}
