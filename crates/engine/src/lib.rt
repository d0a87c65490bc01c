// The head of an engine: what it keeps beside its board. It is one row of lent memory.
#![tactic(auto)]

pub mod codec;

ghost use Rattle.std.specs.Prelude.{◌≡◌};
ghost use Rattle.engine.specs.Engine.{fresh_engine, engine_in, stored, backoff_at, retry_at, with_link, with_progress, with_stats, with_cycle, with_clock};

use heads::cycle::Cycle;
use heads::link::Link;
use heads::options::Options;
use heads::progress::Progress;
use heads::stats::Stats;

// `clock` is the last reading accepted, `count` how many names the directory has.
#[derive(Clone, Copy)]
pub struct Engine {
    pub options: Options,
    pub cycle: Cycle,
    pub clock: f64,
    pub count: u16,
    pub link: Link,
    pub progress: Progress,
    pub stats: Stats,
}

impl Engine {
    // Seconds between reconnect attempts; the last one repeats.
    pub const BACKOFF: [f64; 4] = [1.0, 2.0, 5.0, 10.0];
    // Seconds before a missing tag is asked for again.
    pub const MISSING_RETRY: f64 = 10.0;

    pub fn fresh(options: Options, count: u16) -> Engine
        ensures { result ≡ fresh_engine options count }
    {
        Engine {
            options,
            cycle: Cycle {
                last: None,
                index: 0,
            },
            clock: 0.0,
            count,
            link: Link::fresh(),
            progress: Progress::fresh(),
            stats: Stats::fresh(),
        }
    }

    // The wait before reconnect attempt `attempt`, counted from 0.
    pub fn backoff(attempt: u64) -> f64
        ensures { result ≡ backoff_at attempt }
    {
        if attempt < 3 {
            Engine::BACKOFF[attempt as usize]
        } else {
            Engine::BACKOFF[3]
        }
    }

    // When a tag found missing in a round that started at `start` is asked for again.
    pub fn retry_at(start: f64) -> f64
        ensures { result ≡ retry_at start }
    {
        start + Engine::MISSING_RETRY
    }
}

pub fn with_link(e: Engine, link: Link) -> Engine
    ensures { result ≡ with_link e link }
{
    Engine { link, ..e }
}

pub fn with_progress(e: Engine, progress: Progress) -> Engine
    ensures { result ≡ with_progress e progress }
{
    Engine { progress, ..e }
}

pub fn with_stats(e: Engine, stats: Stats) -> Engine
    ensures { result ≡ with_stats e stats }
{
    Engine { stats, ..e }
}

pub fn with_cycle(e: Engine, cycle: Cycle) -> Engine
    ensures { result ≡ with_cycle e cycle }
{
    Engine { cycle, ..e }
}

pub fn with_clock(e: Engine, clock: f64) -> Engine
    ensures { result ≡ with_clock e clock }
{
    Engine { clock, ..e }
}

// The head that a row holds. Inline, so that a caller decodes only what it reads of it.
#[inline(always)]
pub fn load(s: &[u8]) -> Engine
    ensures { result ≡ engine_in s.now }
{
    codec::engine_from(memory::rows::row(s, 0))
}

// The head put in the first row; where there is none nothing happens.
pub fn store(s: &mut [u8], x: Engine)
    ensures { engine_in s.new ≡ stored s.old x }
{
    memory::rows::put_row(s, 0, codec::engine_words(x));
}

// The clock reading alone: a call that changes nothing else of the head need not store it whole.
pub fn put_clock(s: &mut [u8], clock: f64)
    ensures { engine_in s.new ≡ stored s.old (with_clock (engine_in s.old) clock) }
{
    memory::rows::put_row_cell(s, 0, 6, words::scalar::word_of_float(clock));
}
