// The connection: what the host knows of it, and what is to happen to it.
ghost use Rattle.std.specs.Prelude.{◌≡◌};
ghost use Rattle.heads.specs.Link.{fresh_link, state_from, state_number, with_state, with_attempt, with_version, stopped, is_state, link_from};

use super::version::{VersionWords, version_from};
use words::scalar::word_of_flag;

// What the host is told. Stopped is not told; it comes with the end.
#[derive(Clone, Copy, PartialEq, Eq)]
pub enum State {
    Connecting,
    Connected,
    Disconnected,
    Stopped,
}

// `stopping`: a stop was asked for. `attempt` counts the connects that failed since one worked.
#[derive(Clone, Copy)]
pub struct Link {
    pub state: State,
    pub stopping: bool,
    pub version: Option<u64>,
    pub attempt: u64,
}

// A connection in words, as the head's row has it.
#[derive(Clone, Copy)]
pub struct LinkWords {
    pub state: u64,
    pub stopping: u64,
    pub known: u64,
    pub number: u64,
    pub attempt: u64,
}

impl Link {
    pub fn fresh() -> Link
        ensures { result ≡ fresh_link }
    {
        Link {
            state: State::Connecting,
            stopping: false,
            version: None,
            attempt: 0,
        }
    }
}

// A function each way, and no `From`, as in `progress`: the number is one of many that a `u64` may be. And no `From` for
// what comes as several cells, as `link_from` does.
pub fn state_from(n: u64) -> State
    ensures { result ≡ state_from n }
{
    match n {
        0 => State::Connecting,
        1 => State::Connected,
        2 => State::Disconnected,
        _ => State::Stopped,
    }
}

pub fn state_number(s: State) -> u64
    ensures { result ≡ state_number s }
{
    match s {
        State::Connecting => 0,
        State::Connected => 1,
        State::Disconnected => 2,
        State::Stopped => 3,
    }
}

pub fn is_state(x: Link, s: State) -> bool
    ensures { result ≡ is_state x s }
{
    x.state == s
}

pub fn with_state(x: Link, s: State) -> Link
    ensures { result ≡ with_state x s }
{
    Link { state: s, ..x }
}

pub fn with_attempt(x: Link, attempt: u64) -> Link
    ensures { result ≡ with_attempt x attempt }
{
    Link { attempt, ..x }
}

pub fn with_version(x: Link, version: Option<u64>) -> Link
    ensures { result ≡ with_version x version }
{
    Link { version, ..x }
}

// A stop asked for.
pub fn stopped(x: Link) -> Link
    ensures { result ≡ stopped x }
{
    Link {
        stopping: true,
        ..x
    }
}

pub fn link_from(state: u64, stopping: u64, known: u64, number: u64, attempt: u64) -> Link
    ensures { result ≡ link_from state stopping known number attempt }
{
    Link {
        state: state_from(state),
        stopping: 0 < stopping,
        version: version_from(known, number),
        attempt,
    }
}

impl From<Link> for LinkWords {
    ghost from_gives = { λ x words. link_from words.state words.stopping words.known words.number words.attempt ≡ x };

    fn from(x: Link) -> LinkWords {
        let version = VersionWords::from(x.version);
        LinkWords {
            state: state_number(x.state),
            stopping: word_of_flag(x.stopping),
            known: version.known,
            number: version.number,
            attempt: x.attempt,
        }
    }
}
