// What is written.
use crate::answer::Difference;
use crate::calls::Call;
use crate::counts::Counts;
use std::fmt;

// How a replay ends.
#[derive(Clone, Copy)]
pub enum Ending {
    // All that was recorded has been replayed.
    Done,
    // No call is named where the frame's number is that of none.
    Differs {
        call: Option<Call>,
        difference: Difference,
    },
    Cut,
    Uneven,
}

// How the replay ended, and how far it had come.
#[derive(Clone, Copy)]
pub struct Report {
    pub counts: Counts,
    pub ending: Ending,
}

impl fmt::Display for Report {
    fn fmt<W: fmt::Write>(&self, f: &mut fmt::Formatter<W>) -> fmt::Result {
        let at = self.counts;
        match self.ending {
            Ending::Done => write!(
                f,
                "{} histories, {} calls, {} bytes of answers, all as recorded",
                at.histories, at.calls, at.bytes,
            ),
            Ending::Differs {
                call: Some(call),
                difference,
            } => write!(f, "{at}, {call}: {difference}"),
            Ending::Differs {
                call: None,
                difference,
            } => write!(f, "{at}, no operation: {difference}"),
            Ending::Cut => write!(f, "no whole frame behind {at}"),
            Ending::Uneven => write!(f, "not the end that was recorded, behind {at}"),
        }
    }
}
