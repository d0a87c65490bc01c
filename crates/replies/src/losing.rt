// The end, and a connection that is lost.
ghost use Rattle.std.specs.Prelude.{◌≡◌};
ghost use Rattle.board.specs.Board.{Board, board_in};
ghost use Rattle.board.specs.Layout.{IsBoard};
ghost use Rattle.replies.specs.Worker.{worker, said_in, Done, Quietly};
ghost use Rattle.replies.specs.Losing.{failing, ended, backing_off, disconnected, staling, down, top};

use super::response::{Response, Said};
use board::waiting::queued;
use engine::{Engine, with_link, with_progress};
use heads::link::{State, is_state, with_attempt, with_state};
use heads::progress::{Phase, with_phase};
use heads::stats::more;
use stale::mark_stale;
use writes::failing::fail_writes;

// Something is asked or told, and the engine waits in the phase p.
pub fn phased(e: Engine, p: Phase, r: Response) -> Said
    ensures { result ≡ said_in e p r }
{
    Said {
        response: r,
        head: with_progress(e, with_phase(e.progress, p)),
    }
}

// The writes that wait are told together.
pub fn failing(board: &mut [u8], out: &mut [u8], e: Engine, p: Phase) -> Said
    requires { IsBoard board.old }
    ensures { Done (failing (worker e (board_in board.old)) p) result board.new out.old out.new }
{
    let n = fail_writes(board, out);
    phased(e, p, Response::Failed(n as u64))
}

// The state is stopped; the writes left are told with this last event.
pub fn ended(board: &mut [u8], out: &mut [u8], e: Engine) -> Said
    requires { IsBoard board.old }
    ensures { Done (ended (worker e (board_in board.old))) result board.new out.old out.new }
{
    let n = fail_writes(board, out);
    let next = with_link(e, with_state(e.link, State::Stopped));
    phased(next, Phase::Stopped, Response::Stopped(n as u64))
}

// The wait before the next attempt.
pub fn backing_off(e: Engine) -> Said
    ensures { (B : Board) → Quietly (backing_off (worker e B)) result B }
{
    let attempt = e.link.attempt;
    let next = with_link(e, with_attempt(e.link, more(attempt)));
    phased(
        next,
        Phase::Backoff,
        Response::Wait(Engine::backoff(attempt)),
    )
}

// Status is told only on change.
pub fn disconnected(e: Engine) -> Said
    ensures { (B : Board) → Quietly (disconnected (worker e B)) result B }
{
    if is_state(e.link, State::Disconnected) {
        return backing_off(e);
    }
    let next = with_link(e, with_state(e.link, State::Disconnected));
    phased(
        next,
        Phase::DisconnectedTold,
        Response::Status(State::Disconnected),
    )
}

// Every cached tag not stale yet is marked stale.
pub fn staling(board: &mut [u8], out: &mut [u8], e: Engine) -> Said
    requires { IsBoard board.old }
    ensures { Done (staling (worker e (board_in board.old))) result board.new out.old out.new }
{
    let n = mark_stale(board, out);
    if n == 0 {
        return disconnected(e);
    }
    phased(e, Phase::StaleTold, Response::Values(n as u64))
}

// The connection is lost.
pub fn down(board: &mut [u8], out: &mut [u8], e: Engine) -> Said
    requires { IsBoard board.old }
    ensures { Done (down (worker e (board_in board.old))) result board.new out.old out.new }
{
    if e.link.stopping {
        return ended(board, out, e);
    }
    if queued(board) == 0 {
        return staling(board, out, e);
    }
    failing(board, out, e, Phase::FailedTold)
}

// The next connect, unless a stop was asked for.
pub fn top(board: &mut [u8], out: &mut [u8], e: Engine) -> Said
    requires { IsBoard board.old }
    ensures { Done (top (worker e (board_in board.old))) result board.new out.old out.new }
{
    if e.link.stopping {
        return ended(board, out, e);
    }
    phased(e, Phase::Connect, Response::Connect)
}
