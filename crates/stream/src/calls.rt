// Tier calls and rounds, on the board of a directory that is whole.
ghost use Rattle.board.specs.Layout.{IsBoard};

use super::setup::Names;
use super::state::{Calls, Stage, Stop};
use arrayvec::ArrayVec;
use board::parts::asked_of;
use board::starts::{size_for, tags_in};
use listing::line::Line;
use listing::write::put_line;
use rounds::round::cycle_tags;
use tiers::grace::set_tier;

// Room for the line of a round: each tag takes six bytes at most.
const LINE: usize = 1024;

// `s`: time, tag and tier are checked in this order.
fn take_set(calls: Calls, ms: u64, tag: u64, tier: u64, b: &mut [u8]) -> Result<Calls, Stop>
    requires { IsBoard b.old }
{
    let clock = calls.time(ms)?;
    if tags_in(b) as u64 <= tag || 3 < tier {
        return Err(Stop::Refused);
    }
    set_tier(b, tag as u16, tier as u8, calls.options.grace, clock);
    Ok(Calls { clock, ..calls })
}

// `c`: works out one round, reads nothing, and prints its line.
fn take_round(rt: &impl Print, calls: Calls, ms: u64, b: &mut [u8]) -> Result<Calls, Stop>
    requires { IsBoard b.old }
{
    let clock = calls.time(ms)?;
    let round = cycle_tags(b, calls.options, calls.cycle, clock);
    let mut line = ArrayVec::<u8, LINE>::new();
    if put_line(&mut line, ms, round.boundary, asked_of(b)).is_ok() {
        rt.write_all(line.as_slice())?;
    }
    Ok(Calls {
        cycle: round.cycle,
        clock,
        ..calls
    })
}

fn call(
    rt: &impl Print,
    stage: Stage,
    line: Line,
    names: &Names,
    b: &mut [u8],
) -> Result<Stage, Stop>
    requires { IsBoard b.old }
{
    let calls = match stage {
        Stage::Start => return Err(Stop::Refused),
        Stage::Names(options) => names.begin(options, b)?,
        Stage::Calls(calls) => calls,
    };
    let after = match line {
        Line::Set(ms, tag, tier) => take_set(calls, ms, tag, tier, b)?,
        Line::Round(ms) => take_round(rt, calls, ms, b)?,
        _ => return Err(Stop::Refused),
    };
    Ok(Stage::Calls(after))
}

// `s` or `c`. The board for as many tags as there are names stands at the front of the memory.
pub fn take_call(
    rt: &impl Print,
    stage: Stage,
    line: Line,
    names: &Names,
    mem: &mut [u8],
) -> Result<Stage, Stop> {
    let count = names.count();
    if count == 0 {
        return Err(Stop::Refused);
    }
    let size = size_for(count);
    if mem.len() < size {
        return Err(Stop::Refused);
    }
    call(rt, stage, line, names, &mut mem[..size])
}
