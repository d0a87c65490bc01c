// The state and the version, and the statistics of the rounds.
ghost use Rattle.std.specs.Prelude.{◌≡◌};
ghost use Rattle.shown.specs.Looks.{known_cell, version_cell, state_of, no_state, stats_of, no_stats};

use heads::link::{Link, state_number};
use heads::stats::Stats;

// The state, and the version: known is 0 where it is null.
#[repr(C)]
#[derive(Clone, Copy)]
pub struct StateLook {
    pub code: u64,
    pub state: u64,
    pub known: u64,
    pub version: u64,
}

// timed is 0 where no round has ended yet; then ms and ts are 0.
#[repr(C)]
#[derive(Clone, Copy)]
pub struct StatsLook {
    pub code: u64,
    pub timed: u64,
    pub ms: f64,
    pub ts: i64,
    pub reads: u64,
    pub tags: u64,
    pub overruns: u64,
    pub reconnects: u64,
    pub reloads: u64,
}

fn known_cell(v: Option<u64>) -> u64
    ensures { result ≡ known_cell v }
{
    match v {
        None => 0,
        Some(_) => 1,
    }
}

fn version_cell(v: Option<u64>) -> u64
    ensures { result ≡ version_cell v }
{
    match v {
        None => 0,
        Some(n) => n,
    }
}

pub fn state_of(x: Link) -> StateLook
    ensures { result ≡ state_of x }
{
    StateLook {
        code: 0,
        state: state_number(x.state),
        known: known_cell(x.version),
        version: version_cell(x.version),
    }
}

pub fn no_state(code: u64) -> StateLook
    ensures { result ≡ no_state code }
{
    StateLook {
        code,
        state: 0,
        known: 0,
        version: 0,
    }
}

pub fn stats_of(x: Stats) -> StatsLook
    ensures { result ≡ stats_of x }
{
    let counts = StatsLook {
        reads: x.tags,
        tags: x.tags,
        overruns: x.overruns,
        reconnects: x.reconnects,
        reloads: x.reloads,
        ..no_stats(0)
    };
    match x.last {
        None => counts,
        Some(r) => StatsLook {
            timed: 1,
            ms: r.ms,
            ts: r.ts,
            ..counts
        },
    }
}

pub fn no_stats(code: u64) -> StatsLook
    ensures { result ≡ no_stats code }
{
    StatsLook {
        code,
        timed: 0,
        ms: 0.0,
        ts: 0,
        reads: 0,
        tags: 0,
        overruns: 0,
        reconnects: 0,
        reloads: 0,
    }
}
