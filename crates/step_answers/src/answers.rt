// What each answer of the host comes to.
ghost use Rattle.std.specs.Prelude.{true, List, ◌≡◌, ℕ};
ghost use Rattle.board.specs.Board.{Board, board_in};
ghost use Rattle.board.specs.Layout.{IsBoard};
ghost use Rattle.readings.specs.Changes.{applied_to, Changing};
ghost use Rattle.engine.specs.Engine.{with_stats};
ghost use Rattle.heads.specs.Stats.{reloaded};
ghost use Rattle.replies.specs.declared.response.Response.TheVariants.{Meta};
ghost use Rattle.replies.specs.Worker.{worker, said_in, Done, Quietly};
ghost use Rattle.step_checks.specs.Awaited.{answer};
ghost use Rattle.step_answers.specs.Answers.{connected, reconnecting, opened, number_of, open_version, round_version, results, descriptions, written, read_back, back_applied, waited, backed_off};

use apply::reading::ReadAt;
use board::waiting::queued;
use cycles::polling::{polls, reading, writing};
use descriptions::{learn, learn_none};
use engine::{Engine, with_link, with_stats};
use heads::link::{State, is_state, with_attempt, with_state, with_version};
use heads::progress::{After, Phase};
use heads::stats::{reconnected, reloaded};
use heads::version::is_reloaded;
use readings::kept::apply_back;
use readings::listed::apply;
use replies::at::At;
use replies::losing::{down, ended, failing, phased, top};
use replies::response::{Outcome, Response, Said};
use step_checks::answer::{Answer, Kind};
use values::value::Value;
use versions::check::check_version;
use writes::readback::{ask_read_back, keep_back, read_back_value};
use writes::request::put_asked;

// Connected: attempts are counted afresh, and the status is told if it changed.
pub fn connected(e: Engine) -> Said
    ensures { (B : Board) → Quietly (connected (worker e B)) result B }
{
    let link = with_attempt(e.link, 0);
    if is_state(e.link, State::Connected) {
        return polls(with_link(e, link));
    }
    let next = with_link(e, with_state(link, State::Connected));
    phased(
        next,
        Phase::ConnectedTold,
        Response::Status(State::Connected),
    )
}

// A reconnect attempt.
fn reconnecting(board: &mut [u8], out: &mut [u8], e: Engine) -> Said
    requires { IsBoard board.old }
    ensures { Done (reconnecting (worker e (board_in board.old))) result board.new out.old out.new }
{
    let tallied = with_stats(e, reconnected(e.stats));
    if is_state(e.link, State::Connecting) {
        return top(board, out, tallied);
    }
    let next = with_link(tallied, with_state(e.link, State::Connecting));
    phased(
        next,
        Phase::ConnectingTold,
        Response::Status(State::Connecting),
    )
}

// Opened: writes left over from before the connect fail first.
pub fn opened(board: &mut [u8], out: &mut [u8], e: Engine) -> Said
    requires { IsBoard board.old }
    ensures { Done (opened (worker e (board_in board.old))) result board.new out.old out.new }
{
    if queued(board) == 0 {
        return phased(e, Phase::OpenVersion, Response::Version);
    }
    failing(board, out, e, Phase::OpenFailedTold)
}

// The number of a version; none where the controller has none.
fn number_of(kind: Kind) -> Option<u64>
    ensures { result ≡ number_of kind }
{
    if let Kind::Version(number) = kind {
        return number;
    }
    None
}

// The directory was reloaded: it is counted, and told.
fn meta(e: Engine, p: Phase) -> Said
    ensures { result ≡ said_in (with_stats e (reloaded e.stats)) p Meta }
{
    let tallied = with_stats(e, reloaded(e.stats));
    phased(tallied, p, Response::Meta)
}

// The version while connecting.
pub fn open_version<'a>(board: &mut [u8], e: Engine, a: Answer<'a>) -> Said
    requires { IsBoard board.old }
    ensures { (out : List ℕ) → Done (open_version (worker e (board_in board.old)) (answer a.entry)) result board.new out out }
{
    let new = number_of(a.kind);
    check_version(board, a.list, e.link.version, new, true);
    let next = with_link(e, with_version(e.link, new));
    if is_reloaded(e.link.version, new) {
        return meta(next, Phase::OpenMetaTold);
    }
    connected(next)
}

// The version at a boundary.
pub fn round_version<'a>(board: &mut [u8], out: &mut [u8], e: Engine, a: Answer<'a>, at: At) -> Said
    requires { IsBoard board.old }
    ensures { Done (round_version (worker e (board_in board.old)) at (answer a.entry)) result board.new out.old out.new }
{
    let new = number_of(a.kind);
    check_version(board, a.list, e.link.version, new, false);
    let next = with_link(e, with_version(e.link, new));
    if is_reloaded(e.link.version, new) {
        return meta(next, Phase::MetaTold);
    }
    writing(board, out, next, at, After::Tail)
}

// Rule 7: the results of a round count from its start, however late they come.
fn apply_polled(board: &mut [u8], out: &mut [u8], results: &[u8], e: Engine, t: i64) -> usize
    requires { IsBoard board.old }
    ensures { Changing (applied_to (board_in board.old) results.now e.progress.start t true) result board.new out.old out.new }
{
    let when = ReadAt {
        start: e.progress.start,
        t,
        polled: true,
    };
    apply(board, out, results, when)
}

// The results of a round.
pub fn results<'a>(board: &mut [u8], out: &mut [u8], e: Engine, a: Answer<'a>, at: At) -> Said
    requires { IsBoard board.old }
    ensures { Done (results (worker e (board_in board.old)) at (answer a.entry)) result board.new out.old out.new }
{
    if let Kind::Lost = a.kind {
        return down(board, out, e);
    }
    let n = apply_polled(board, out, a.list, e, at.wall);
    if n == 0 {
        return reading(board, out, e, at);
    }
    phased(e, Phase::ValuesTold, Response::Values(n as u64))
}

// Descriptions; every tag asked is told.
pub fn descriptions<'a>(board: &mut [u8], out: &mut [u8], e: Engine, a: Answer<'a>) -> Said
    requires { IsBoard board.old }
    ensures { Done (descriptions (worker e (board_in board.old)) (answer a.entry)) result board.new out.old out.new }
{
    match a.kind {
        Kind::Descriptions => learn(board, a.list),
        _ => learn_none(board),
    }
    let n = put_asked(board, out);
    phased(e, Phase::InfoTold, Response::Info(n as u64))
}

// A write was answered.
pub fn written<'a>(board: &mut [u8], out: &mut [u8], e: Engine, a: Answer<'a>) -> Said
    requires { IsBoard board.old }
    ensures { Done (written (worker e (board_in board.old)) (answer a.entry)) result board.new out.old out.new }
{
    let tag = e.progress.tag;
    match a.kind {
        Kind::Written => {
            ask_read_back(board, tag);
            let n = put_asked(board, out);
            phased(e, Phase::ReadBack, Response::ReadBack(n as u64))
        }
        Kind::Refused(error, message) => phased(
            e,
            Phase::RefusedTold,
            Response::Outcome(tag, Outcome::Refused(error, message)),
        ),
        _ => phased(e, Phase::LostTold, Response::Outcome(tag, Outcome::Lost)),
    }
}

// A read-back was answered: the outcome is told, and the results are kept until it has been taken.
pub fn read_back<'a>(board: &mut [u8], e: Engine, a: Answer<'a>) -> Said
    requires { IsBoard board.old }
    ensures { (out : List ℕ) → Done (read_back (worker e (board_in board.old)) (answer a.entry)) result board.new out out }
{
    let tag = e.progress.tag;
    if let Kind::Lost = a.kind {
        let lost = Outcome::WentThrough(Value::Null);
        return phased(e, Phase::LostTold, Response::Outcome(tag, lost));
    }
    keep_back(board, a.list);
    let read = Outcome::WentThrough(read_back_value(a.list));
    phased(e, Phase::OutcomeTold, Response::Outcome(tag, read))
}

// The outcome was taken: the read-back is applied.
pub fn back_applied(board: &mut [u8], out: &mut [u8], e: Engine, at: At) -> Said
    requires { IsBoard board.old }
    ensures { Done (back_applied (worker e (board_in board.old)) at) result board.new out.old out.new }
{
    let when = ReadAt {
        start: at.clock,
        t: at.wall,
        polled: false,
    };
    let n = apply_back(board, out, when);
    if n == 0 {
        return writing(board, out, e, at, e.progress.after);
    }
    phased(e, Phase::BackTold, Response::Values(n as u64))
}

// The wait between rounds is over, or was cut short.
pub fn waited(board: &mut [u8], out: &mut [u8], e: Engine, at: At) -> Said
    requires { IsBoard board.old }
    ensures { Done (waited (worker e (board_in board.old)) at) result board.new out.old out.new }
{
    if e.link.stopping {
        return writing(board, out, e, at, After::End);
    }
    writing(board, out, e, at, After::Idle)
}

// A backoff wait ends at its first answer.
pub fn backed_off(board: &mut [u8], out: &mut [u8], e: Engine) -> Said
    requires { IsBoard board.old }
    ensures { Done (backed_off (worker e (board_in board.old))) result board.new out.old out.new }
{
    if e.link.stopping {
        return ended(board, out, e);
    }
    reconnecting(board, out, e)
}
