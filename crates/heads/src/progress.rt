// How far the engine has come: what it waits for, and what it needs to go on.
ghost use Rattle.std.specs.Prelude.{◌≡◌};
ghost use Rattle.heads.specs.Progress.{fresh_progress, phase_from, phase_number, after_from, after_number, with_phase, with_writing, with_round, progress_from};

use words::scalar::{float_of_word, word_of_flag, word_of_float};

// What is waited for. The first ten are requests; those that end in Told are events to be taken.
#[derive(Clone, Copy)]
pub enum Phase {
    Begin,
    Connect,
    OpenVersion,
    Version,
    Read,
    Describe,
    Write,
    ReadBack,
    Wait,
    Backoff,
    OpenFailedTold,
    OpenMetaTold,
    ConnectedTold,
    MetaTold,
    ValuesTold,
    InfoTold,
    RefusedTold,
    LostTold,
    OutcomeTold,
    BackTold,
    FailedTold,
    StaleTold,
    DisconnectedTold,
    ConnectingTold,
    Stopped,
}

// Where the writing came from, and so where it goes on: the end of a round, the wait between rounds, or the stop.
#[derive(Clone, Copy)]
pub enum After {
    Tail,
    Idle,
    End,
}

// The round in hand: when it started, its tick, and whether it is a boundary. `tag` is that of the write in hand.
#[derive(Clone, Copy)]
pub struct Progress {
    pub phase: Phase,
    pub after: After,
    pub start: f64,
    pub tick: f64,
    pub boundary: bool,
    pub tag: u16,
}

// The same in words, as the head's row has it.
#[derive(Clone, Copy)]
pub struct ProgressWords {
    pub phase: u64,
    pub after: u64,
    pub start: u64,
    pub tick: u64,
    pub boundary: u64,
    pub tag: u64,
}

impl Progress {
    pub fn fresh() -> Progress
        ensures { result ≡ fresh_progress }
    {
        Progress {
            phase: Phase::Begin,
            after: After::Tail,
            start: 0.0,
            tick: 0.0,
            boundary: false,
            tag: 0,
        }
    }
}

pub fn phase_from(n: u64) -> Phase
    ensures { result ≡ phase_from n }
{
    match n {
        0 => Phase::Begin,
        1 => Phase::Connect,
        2 => Phase::OpenVersion,
        3 => Phase::Version,
        4 => Phase::Read,
        5 => Phase::Describe,
        6 => Phase::Write,
        7 => Phase::ReadBack,
        8 => Phase::Wait,
        9 => Phase::Backoff,
        10 => Phase::OpenFailedTold,
        11 => Phase::OpenMetaTold,
        12 => Phase::ConnectedTold,
        13 => Phase::MetaTold,
        14 => Phase::ValuesTold,
        15 => Phase::InfoTold,
        16 => Phase::RefusedTold,
        17 => Phase::LostTold,
        18 => Phase::OutcomeTold,
        19 => Phase::BackTold,
        20 => Phase::FailedTold,
        21 => Phase::StaleTold,
        22 => Phase::DisconnectedTold,
        23 => Phase::ConnectingTold,
        _ => Phase::Stopped,
    }
}

pub fn phase_number(p: Phase) -> u64
    ensures { result ≡ phase_number p }
{
    match p {
        Phase::Begin => 0,
        Phase::Connect => 1,
        Phase::OpenVersion => 2,
        Phase::Version => 3,
        Phase::Read => 4,
        Phase::Describe => 5,
        Phase::Write => 6,
        Phase::ReadBack => 7,
        Phase::Wait => 8,
        Phase::Backoff => 9,
        Phase::OpenFailedTold => 10,
        Phase::OpenMetaTold => 11,
        Phase::ConnectedTold => 12,
        Phase::MetaTold => 13,
        Phase::ValuesTold => 14,
        Phase::InfoTold => 15,
        Phase::RefusedTold => 16,
        Phase::LostTold => 17,
        Phase::OutcomeTold => 18,
        Phase::BackTold => 19,
        Phase::FailedTold => 20,
        Phase::StaleTold => 21,
        Phase::DisconnectedTold => 22,
        Phase::ConnectingTold => 23,
        Phase::Stopped => 24,
    }
}

pub fn after_from(n: u64) -> After
    ensures { result ≡ after_from n }
{
    match n {
        0 => After::Tail,
        1 => After::Idle,
        _ => After::End,
    }
}

pub fn after_number(a: After) -> u64
    ensures { result ≡ after_number a }
{
    match a {
        After::Tail => 0,
        After::Idle => 1,
        After::End => 2,
    }
}

pub fn with_phase(x: Progress, phase: Phase) -> Progress
    ensures { result ≡ with_phase x phase }
{
    Progress { phase, ..x }
}

// A write of the tag is asked for.
pub fn with_writing(x: Progress, after: After, tag: u16) -> Progress
    ensures { result ≡ with_writing x after tag }
{
    Progress {
        phase: Phase::Write,
        after,
        tag,
        ..x
    }
}

// A round was worked out.
pub fn with_round(x: Progress, start: f64, tick: f64, boundary: bool) -> Progress
    ensures { result ≡ with_round x start tick boundary }
{
    Progress {
        start,
        tick,
        boundary,
        ..x
    }
}

pub fn progress_from(
    phase: u64,
    after: u64,
    start: u64,
    tick: u64,
    boundary: u64,
    tag: u64,
) -> Progress
    ensures { result ≡ progress_from phase after start tick boundary tag }
{
    Progress {
        phase: phase_from(phase),
        after: after_from(after),
        start: float_of_word(start),
        tick: float_of_word(tick),
        boundary: 0 < boundary,
        tag: (tag % 65536) as u16,
    }
}

impl From<Progress> for ProgressWords {
    ghost from_gives = { λ x words. progress_from words.phase words.after words.start words.tick words.boundary words.tag ≡ x };

    fn from(x: Progress) -> ProgressWords {
        ProgressWords {
            phase: phase_number(x.phase),
            after: after_number(x.after),
            start: word_of_float(x.start),
            tick: word_of_float(x.tick),
            boundary: word_of_flag(x.boundary),
            tag: x.tag as u64,
        }
    }
}
