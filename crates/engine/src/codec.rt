// The head as a row of 32 cells and back.
ghost use Rattle.std.specs.Prelude.{◌≡◌, get_or};
ghost use Rattle.heads.specs.Link.{link_from};
ghost use Rattle.heads.specs.Progress.{progress_from};
ghost use Rattle.heads.specs.Stats.{stats_from};
ghost use Rattle.engine.specs.Engine.{options_from, cycle_from, engine_from};

use super::Engine;
use heads::cycle::Cycle;
use heads::link::{Link, LinkWords, link_from};
use heads::options::Options;
use heads::progress::{Progress, ProgressWords, progress_from};
use heads::stats::{Stats, StatsWords, stats_from};
use words::scalar::{float_of_word, word_of_float};
use words::time::{TimeWords, time_from};

// Each part of the head from its cells of the row.
fn options_in(w: [u64; 32]) -> Options
    ensures { result ≡ options_from (get_or w 0 0) (get_or w 1 0) (get_or w 2 0) }
{
    Options {
        cycle: float_of_word(w[0]),
        period: float_of_word(w[1]),
        grace: float_of_word(w[2]),
    }
}

fn cycle_in(w: [u64; 32]) -> Cycle
    ensures { result ≡ cycle_from (get_or w 3 0) (get_or w 4 0) (get_or w 5 0) }
{
    Cycle {
        last: time_from(w[3], w[4]),
        index: w[5],
    }
}

fn link_in(w: [u64; 32]) -> Link
    ensures { result ≡ link_from (get_or w 8 0) (get_or w 9 0) (get_or w 10 0) (get_or w 11 0) (get_or w 12 0) }
{
    link_from(w[8], w[9], w[10], w[11], w[12])
}

fn progress_in(w: [u64; 32]) -> Progress
    ensures { result ≡ progress_from (get_or w 13 0) (get_or w 14 0) (get_or w 15 0) (get_or w 16 0) (get_or w 17 0) (get_or w 18 0) }
{
    progress_from(w[13], w[14], w[15], w[16], w[17], w[18])
}

fn stats_in(w: [u64; 32]) -> Stats
    ensures { result ≡ stats_from (get_or w 19 0) (get_or w 20 0) (get_or w 21 0) (get_or w 22 0) (get_or w 23 0) (get_or w 24 0) (get_or w 25 0) }
{
    stats_from(w[19], w[20], w[21], w[22], w[23], w[24], w[25])
}

// No `From` either way: a row of cells does not say what is in it.
pub fn engine_from(w: [u64; 32]) -> Engine
    ensures { result ≡ engine_from w }
{
    Engine {
        options: options_in(w),
        cycle: cycle_in(w),
        clock: float_of_word(w[6]),
        count: (w[7] % 65536) as u16,
        link: link_in(w),
        progress: progress_in(w),
        stats: stats_in(w),
    }
}

pub fn engine_words(x: Engine) -> [u64; 32]
    ensures { engine_from result ≡ x }
{
    let last = TimeWords::from(x.cycle.last);
    let link = LinkWords::from(x.link);
    let progress = ProgressWords::from(x.progress);
    let stats = StatsWords::from(x.stats);
    [
        word_of_float(x.options.cycle),
        word_of_float(x.options.period),
        word_of_float(x.options.grace),
        last.known,
        last.word,
        x.cycle.index,
        word_of_float(x.clock),
        x.count as u64,
        link.state,
        link.stopping,
        link.known,
        link.number,
        link.attempt,
        progress.phase,
        progress.after,
        progress.start,
        progress.tick,
        progress.boundary,
        progress.tag,
        stats.timed,
        stats.ms,
        stats.ts,
        stats.tags,
        stats.overruns,
        stats.reconnects,
        stats.reloads,
        0,
        0,
        0,
        0,
        0,
        0,
    ]
}
