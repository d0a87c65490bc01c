// What a step gives back.
use engine::Engine;
use heads::link::State;
use values::value::Value;

// What became of a write. A refusal of the driver has the numbers of its error and of its message.
#[derive(Clone, Copy)]
pub enum Outcome {
    WentThrough(Value),
    Refused(u64, u64),
    Lost,
}

// One request or one event. A `u64` is how many records the lent list has, a `u16` the tag of a write, an `f64` seconds.
// With `GoOn` nothing is told yet: a round is to be worked out first.
#[derive(Clone, Copy)]
pub enum Response {
    GoOn,
    Connect,
    Version,
    Read(u64),
    Write(u16, Value),
    ReadBack(u64),
    Describe(u64),
    Wait(f64),
    Values(u64),
    Status(State),
    Meta,
    Info(u64),
    Outcome(u16, Outcome),
    Failed(u64),
    Stopped(u64),
}

// What a step gives back, with the head that it leaves.
#[derive(Clone, Copy)]
pub struct Said {
    pub response: Response,
    pub head: Engine,
}
