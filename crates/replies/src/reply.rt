// What a call gives back, in numbers.
ghost use Rattle.std.specs.Prelude.{◌≡◌};
ghost use Rattle.refusals.specs.Refusals.{number};
ghost use Rattle.replies.specs.Reply.{listed, valued, wait, status, outcome_of, reply_of, refused};

use super::response::{Outcome, Response};
use heads::link::{State, state_number};
use refusals::Refusal;
use values::value::Value;
use words::value::ValueWords;

// `code` is 0, or the number of a refusal; then all else is 0. `count` is how many records the lent list has. `what` is the
// state of a status, and of an outcome 0 where the write went through, 1 where the driver refused it, 2 where it was lost.
#[repr(C)]
#[derive(Clone, Copy)]
pub struct Reply {
    pub code: u64,
    pub kind: u64,
    pub count: u64,
    pub tag: u64,
    pub what: u64,
    pub value: u64,
    pub word: u64,
    pub error: u64,
    pub message: u64,
    pub seconds: f64,
}

// The numbers of the kinds, as the C interface has them.
impl Reply {
    pub const GO_ON: u64 = 0;

    pub const CONNECT: u64 = 1;

    pub const VERSION: u64 = 2;

    pub const READ: u64 = 3;

    pub const WRITE: u64 = 4;

    pub const READ_BACK: u64 = 5;

    pub const DESCRIBE: u64 = 6;

    pub const WAIT: u64 = 7;

    pub const VALUES: u64 = 8;

    pub const STATUS: u64 = 9;

    pub const META: u64 = 10;

    pub const INFO: u64 = 11;

    pub const OUTCOME: u64 = 12;

    pub const FAILED: u64 = 13;

    pub const STOPPED: u64 = 14;

    // What follows says what it sets, and takes the rest from here.
    const NOTHING: Reply = Reply {
        code: 0,
        kind: 0,
        count: 0,
        tag: 0,
        what: 0,
        value: 0,
        word: 0,
        error: 0,
        message: 0,
        seconds: 0.0,
    };

    pub fn listed(kind: u64, count: u64) -> Reply
        ensures { result ≡ listed kind count }
    {
        Reply {
            kind,
            count,
            ..Reply::NOTHING
        }
    }

    // A write, and one that went through.
    fn valued(kind: u64, tag: u16, value: Value) -> Reply
        ensures { result ≡ valued kind tag value }
    {
        let v = ValueWords::from(value);
        Reply {
            kind,
            tag: tag as u64,
            value: v.kind,
            word: v.word,
            ..Reply::NOTHING
        }
    }

    pub fn wait(seconds: f64) -> Reply
        ensures { result ≡ wait seconds }
    {
        Reply {
            kind: Reply::WAIT,
            seconds,
            ..Reply::NOTHING
        }
    }

    pub fn status(state: State) -> Reply
        ensures { result ≡ status state }
    {
        Reply {
            kind: Reply::STATUS,
            what: state_number(state),
            ..Reply::NOTHING
        }
    }

    // A refusal: its number alone.
    pub fn refused(refusal: Refusal) -> Reply
        ensures { result ≡ refused (number refusal) }
    {
        Reply {
            code: refusal.number() as u64,
            ..Reply::NOTHING
        }
    }
}

impl Outcome {
    fn reply(self, tag: u16) -> Reply
        ensures { result ≡ outcome_of tag self }
    {
        match self {
            Outcome::WentThrough(value) => Reply::valued(Reply::OUTCOME, tag, value),
            Outcome::Refused(error, message) => Reply {
                kind: Reply::OUTCOME,
                tag: tag as u64,
                what: 1,
                error,
                message,
                ..Reply::NOTHING
            },
            Outcome::Lost => Reply {
                kind: Reply::OUTCOME,
                tag: tag as u64,
                what: 2,
                ..Reply::NOTHING
            },
        }
    }
}

impl Response {
    // The one place where what a step gives back becomes numbers.
    pub fn reply(self) -> Reply
        ensures { result ≡ reply_of self }
    {
        match self {
            Response::GoOn => Reply::listed(Reply::GO_ON, 0),
            Response::Connect => Reply::listed(Reply::CONNECT, 0),
            Response::Version => Reply::listed(Reply::VERSION, 0),
            Response::Read(n) => Reply::listed(Reply::READ, n),
            Response::Write(tag, value) => Reply::valued(Reply::WRITE, tag, value),
            Response::ReadBack(n) => Reply::listed(Reply::READ_BACK, n),
            Response::Describe(n) => Reply::listed(Reply::DESCRIBE, n),
            Response::Wait(seconds) => Reply::wait(seconds),
            Response::Values(n) => Reply::listed(Reply::VALUES, n),
            Response::Status(state) => Reply::status(state),
            Response::Meta => Reply::listed(Reply::META, 0),
            Response::Info(n) => Reply::listed(Reply::INFO, n),
            Response::Outcome(tag, outcome) => outcome.reply(tag),
            Response::Failed(n) => Reply::listed(Reply::FAILED, n),
            Response::Stopped(n) => Reply::listed(Reply::STOPPED, n),
        }
    }
}
