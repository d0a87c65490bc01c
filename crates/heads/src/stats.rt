// Rule 10: the statistics of the rounds.
ghost use Rattle.std.specs.Prelude.{◌≡◌};
ghost use Rattle.heads.specs.Stats.{fresh_stats, counted, read_stats, tail_stats, reconnected, reloaded, round_time_from, stats_from};

use words::scalar::{float_of_word, int_of_word, word_of_float, word_of_int};

// How many milliseconds a round took, and the wall time at its end.
#[derive(Clone, Copy)]
pub struct RoundTime {
    pub ms: f64,
    pub ts: i64,
}

// `last` is of the last round, if one has ended, `tags` how many tags the last round asked for.
#[derive(Clone, Copy)]
pub struct Stats {
    pub last: Option<RoundTime>,
    pub tags: u64,
    pub overruns: u64,
    pub reconnects: u64,
    pub reloads: u64,
}

// The same in words, as the head's row has it; timed: 0 where no round has ended.
#[derive(Clone, Copy)]
pub struct StatsWords {
    pub timed: u64,
    pub ms: u64,
    pub ts: u64,
    pub tags: u64,
    pub overruns: u64,
    pub reconnects: u64,
    pub reloads: u64,
}

#[derive(Clone, Copy)]
struct RoundTimeWords {
    timed: u64,
    ms: u64,
    ts: u64,
}

impl Stats {
    pub fn fresh() -> Stats
        ensures { result ≡ fresh_stats }
    {
        Stats {
            last: None,
            tags: 0,
            overruns: 0,
            reconnects: 0,
            reloads: 0,
        }
    }
}

// One more; a count stops at the largest.
pub fn more(n: u64) -> u64
    ensures { result ≡ counted n }
{
    if n < 0xffff_ffff_ffff_ffff {
        return n + 1;
    }
    n
}

// The tags of the round were read.
pub fn read_stats(x: Stats, tags: u64) -> Stats
    ensures { result ≡ read_stats x tags }
{
    Stats { tags, ..x }
}

// A round has ended, `elapsed` seconds after its start.
pub fn tail_stats(x: Stats, elapsed: f64, tick: f64, t: i64) -> Stats
    ensures { result ≡ tail_stats x elapsed tick t }
{
    let overruns = if elapsed > tick {
        more(x.overruns)
    } else {
        x.overruns
    };
    Stats {
        last: Some(RoundTime {
            ms: ieee::round::round1(elapsed * 1000.0),
            ts: t,
        }),
        overruns,
        ..x
    }
}

pub fn reconnected(x: Stats) -> Stats
    ensures { result ≡ reconnected x }
{
    Stats {
        reconnects: more(x.reconnects),
        ..x
    }
}

pub fn reloaded(x: Stats) -> Stats
    ensures { result ≡ reloaded x }
{
    Stats {
        reloads: more(x.reloads),
        ..x
    }
}

fn round_time_from(timed: u64, ms: u64, ts: u64) -> Option<RoundTime>
    ensures { result ≡ round_time_from timed ms ts }
{
    if timed == 0 {
        return None;
    }
    Some(RoundTime {
        ms: float_of_word(ms),
        ts: int_of_word(ts),
    })
}

impl From<Option<RoundTime>> for RoundTimeWords {
    ghost from_gives = { λ x words. round_time_from words.timed words.ms words.ts ≡ x };

    fn from(x: Option<RoundTime>) -> RoundTimeWords {
        match x {
            None => RoundTimeWords {
                timed: 0,
                ms: 0,
                ts: 0,
            },
            Some(r) => RoundTimeWords {
                timed: 1,
                ms: word_of_float(r.ms),
                ts: word_of_int(r.ts),
            },
        }
    }
}

pub fn stats_from(
    timed: u64,
    ms: u64,
    ts: u64,
    tags: u64,
    overruns: u64,
    reconnects: u64,
    reloads: u64,
) -> Stats
    ensures { result ≡ stats_from timed ms ts tags overruns reconnects reloads }
{
    Stats {
        last: round_time_from(timed, ms, ts),
        tags,
        overruns,
        reconnects,
        reloads,
    }
}

impl From<Stats> for StatsWords {
    ghost from_gives = { λ x words. stats_from words.timed words.ms words.ts words.tags words.overruns words.reconnects words.reloads ≡ x };

    fn from(x: Stats) -> StatsWords {
        let last = RoundTimeWords::from(x.last);
        StatsWords {
            timed: last.timed,
            ms: last.ms,
            ts: last.ts,
            tags: x.tags,
            overruns: x.overruns,
            reconnects: x.reconnects,
            reloads: x.reloads,
        }
    }
}
