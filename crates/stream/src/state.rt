// How far a listing has come, and why it stops.
ghost use Rattle.std.specs.Prelude.{◌≡◌, Some, None, MatchResult};
ghost use Rattle.stream.specs.Calls.{new, time};

use heads::cycle::Cycle;
use heads::options::Options;
use ieee::times::{is_clock, seconds};
use std::io;

// The options come first, then names, and then, from the first `s` or `c` on, calls.
#[derive(Clone, Copy)]
pub enum Stage {
    Start,
    Names(Options),
    Calls(Calls),
}

// `clock` is the last time accepted.
#[derive(Clone, Copy)]
pub struct Calls {
    pub options: Options,
    pub cycle: Cycle,
    pub clock: f64,
}

impl Calls {
    // Before the first.
    pub fn new(options: Options) -> Calls
        ensures { result ≡ new options }
    {
        Calls {
            options,
            cycle: Cycle {
                last: None,
                index: 0,
            },
            clock: 0.0,
        }
    }

    // The time of a call, given in whole milliseconds. It does not go back.
    pub fn time(self, ms: u64) -> Result<f64, Stop>
        ensures { MatchResult result (λ clock. time self ms ≡ Some clock) (λ _. time self ms ≡ None) }
    {
        let clock = seconds(ms);
        if !is_clock(clock) || clock < self.clock {
            return Err(Stop::Refused);
        }
        Ok(clock)
    }
}

// A line that is refused ends the listing, and so does a read or write that fails.
#[derive(Drop)]
pub enum Stop {
    Refused,
    Failed(io::Error),
}

impl From<io::Error> for Stop {
    fn from(e: io::Error) -> Stop {
        Stop::Failed(e)
    }
}
