// Rounds, the writes behind them, and the waits between them.
ghost use Rattle.std.specs.Prelude.{◌≡◌};
ghost use Rattle.board.specs.Board.{Board, board_in};
ghost use Rattle.board.specs.Layout.{IsBoard};
ghost use Rattle.replies.specs.Worker.{worker, Done, Quietly};
ghost use Rattle.cycles.specs.Polling.{polls, waiting, idle, tail, resume, writing, checking, reading, polled, round_at, poll, Goes};

use board::tag_lists::asked_count;
use board::waiting::pop_write;
use descriptions::ask_descriptions;
use engine::{Engine, with_cycle, with_progress, with_stats};
use heads::progress::{After, Phase, with_round, with_writing};
use heads::stats::{read_stats, tail_stats};
use replies::at::At;
use replies::losing::{ended, phased};
use replies::response::{Response, Said};
use rounds::round::cycle_tags;
use writes::request::put_asked;

// Nothing is told yet: a round is to be worked out.
pub fn polls(e: Engine) -> Said
    ensures { (B : Board) → Quietly (polls (worker e B)) result B }
{
    Said {
        response: Response::GoOn,
        head: e,
    }
}

// The rest of the tick is waited for.
fn waiting(e: Engine, at: At) -> Said
    ensures { (B : Board) → Quietly (waiting (worker e B) at) result B }
{
    let p = e.progress;
    phased(
        e,
        Phase::Wait,
        Response::Wait(p.tick - (at.clock - p.start)),
    )
}

// The wait between rounds ends within 0.0001 s of its tick.
fn idle(e: Engine, at: At) -> Said
    ensures { (B : Board) → Quietly (idle (worker e B) at) result B }
{
    let p = e.progress;
    if p.tick - (at.clock - p.start) <= 0.0001 {
        return polls(e);
    }
    waiting(e, at)
}

// A round has ended.
fn tail(e: Engine, at: At) -> Said
    ensures { (B : Board) → Quietly (tail (worker e B) at) result B }
{
    let p = e.progress;
    let elapsed = at.clock - p.start;
    let next = with_stats(e, tail_stats(e.stats, elapsed, p.tick, at.wall));
    if elapsed <= p.tick {
        return idle(next, at);
    }
    polls(next)
}

// The writing has ended, and goes on where it came from.
fn resume(board: &mut [u8], out: &mut [u8], e: Engine, at: At, after: After) -> Said
    requires { IsBoard board.old }
    ensures { Done (resume (worker e (board_in board.old)) at after) result board.new out.old out.new }
{
    match after {
        After::Tail => tail(e, at),
        After::Idle => idle(e, at),
        After::End => ended(board, out, e),
    }
}

// The first write that waits is asked for; an empty write queue ends the writing.
pub fn writing(board: &mut [u8], out: &mut [u8], e: Engine, at: At, after: After) -> Said
    requires { IsBoard board.old }
    ensures { Done (writing (worker e (board_in board.old)) at after) result board.new out.old out.new }
{
    let Some(w) = pop_write(board) else {
        return resume(board, out, e, at, after);
    };
    Said {
        response: Response::Write(w.tag, w.value),
        head: with_progress(e, with_writing(e.progress, after, w.tag)),
    }
}

// At a boundary the version is asked for.
pub fn checking(board: &mut [u8], out: &mut [u8], e: Engine, at: At) -> Said
    requires { IsBoard board.old }
    ensures { Done (checking (worker e (board_in board.old)) at) result board.new out.old out.new }
{
    if e.progress.boundary {
        return phased(e, Phase::Version, Response::Version);
    }
    writing(board, out, e, at, After::Tail)
}

// The round's tags are counted, and the descriptions that are wanted are asked for.
pub fn reading(board: &mut [u8], out: &mut [u8], e: Engine, at: At) -> Said
    requires { IsBoard board.old }
    ensures { Done (reading (worker e (board_in board.old)) at) result board.new out.old out.new }
{
    let tags = asked_count(board);
    let next = with_stats(e, read_stats(e.stats, tags as u64));
    ask_descriptions(board);
    if asked_count(board) == 0 {
        return checking(board, out, next, at);
    }
    let n = put_asked(board, out);
    phased(next, Phase::Describe, Response::Describe(n as u64))
}

// A round at the clock reading.
fn polled(board: &mut [u8], out: &mut [u8], e: Engine, at: At) -> Said
    requires { IsBoard board.old }
    ensures { Done (polled (worker e (board_in board.old)) at (round_at (worker e (board_in board.old)) at)) result board.new out.old out.new }
{
    let w = cycle_tags(board, e.options, e.cycle, at.clock);
    let progress = with_round(e.progress, at.clock, w.tick, w.boundary);
    let next = with_progress(with_cycle(e, w.cycle), progress);
    if asked_count(board) == 0 {
        return reading(board, out, next, at);
    }
    let n = put_asked(board, out);
    phased(next, Phase::Read, Response::Read(n as u64))
}

// The next round, unless a stop was asked for; then the writes that wait still go out.
fn poll(board: &mut [u8], out: &mut [u8], e: Engine, at: At) -> Said
    requires { IsBoard board.old }
    ensures { Done (poll (worker e (board_in board.old)) at) result board.new out.old out.new }
{
    if e.link.stopping {
        return writing(board, out, e, at, After::End);
    }
    polled(board, out, e, at)
}

// What was said stands, or a round is worked out; a step works out one at most.
pub fn finish(board: &mut [u8], out: &mut [u8], s: Said, at: At) -> Said
    requires { IsBoard board.old }
    ensures { Goes s at board.old result board.new out.old out.new }
{
    let Response::GoOn = s.response else {
        return s;
    };
    let t = poll(board, out, s.head, at);
    let Response::GoOn = t.response else {
        return t;
    };
    waiting(t.head, at)
}
