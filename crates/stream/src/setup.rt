// Options and names.
ghost use Rattle.std.specs.Prelude.{◌≡◌, ◌≤◌, [], ◌∷◌, ◌++◌, length, MatchResult};
ghost use Rattle.board.specs.Layout.{IsBoard};

use super::state::{Calls, Stage, Stop};
use arrayvec::ArrayVec;
use board::starts::tags_in;
use fresh::create;
use heads::options::{Options, check_options};
use ieee::times::seconds;
use names::directory::{Directory, MAX_NAME_LENGTH, MAX_NAMES};

// Room for the names of the largest directory.
const NAMES: usize = MAX_NAMES * MAX_NAME_LENGTH;

// `o`: cycle, period and grace in milliseconds.
pub fn options(cycle: u64, period: u64, grace: u64) -> Result<Stage, Stop> {
    let o = Options {
        cycle: seconds(cycle),
        period: seconds(period),
        grace: seconds(grace),
    };
    if check_options(o).is_err() {
        return Err(Stop::Refused);
    }
    Ok(Stage::Names(o))
}

// The names so far, as a directory has them: one after the other, and where each ends.
#[derive(Drop)]
pub struct Names {
    bytes: ArrayVec<u8, NAMES>,
    ends: ArrayVec<u32, MAX_NAMES>,
}

impl Names {
    pub fn new() -> Names
        ensures { (result.bytes.items ≡ []) × (result.ends.items ≡ []) }
    {
        Names {
            bytes: ArrayVec::new(),
            ends: ArrayVec::new(),
        }
    }

    pub fn count(&self) -> usize
        ensures { (result ≤ MAX_NAMES) × (result ≡ length self.now.ends.items) }
    {
        self.ends.len()
    }

    // `n`: one name more. Which names there may be is checked when all have come.
    pub fn push(&mut self, name: &[u8]) -> Result<(), Stop>
        ensures { MatchResult result (λ _. (self.new.bytes.items ≡ self.old.bytes.items ++ name.now) × (self.new.ends.items ≡ self.old.ends.items ++ (length self.new.bytes.items ∷ []))) (λ _. self.new ≡ self.old) }
    {
        if MAX_NAME_LENGTH < name.len() || self.ends.is_full() {
            return Err(Stop::Refused);
        }
        if self.bytes.try_extend_from_slice(name).is_err() {
            return Err(Stop::Refused);
        }
        let end = self.bytes.len();
        self.ends.push(end as u32);
        Ok(())
    }

    // The first `s` or `c`: the directory is whole, and is checked. No settings are set, and no groups.
    pub fn begin(&self, options: Options, b: &mut [u8]) -> Result<Calls, Stop>
        requires { IsBoard b.old }
    {
        let directory = Directory {
            names: self.bytes.as_slice(),
            ends: self.ends.as_slice(),
        };
        if tags_in(b) != directory.ends.len() || directory.check().is_err() {
            return Err(Stop::Refused);
        }
        create(b, directory, b"", b"");
        Ok(Calls::new(options))
    }
}
