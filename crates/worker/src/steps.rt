// Rule 9: a step.
ghost use Rattle.std.specs.Prelude.{length};
ghost use Rattle.board.specs.Board.{board_in};
ghost use Rattle.board.specs.Layout.{IsBoard};
ghost use Rattle.replies.specs.Worker.{worker, Done};
ghost use Rattle.step_checks.specs.Awaited.{answer};
ghost use Rattle.step_answers.specs.Answers.{connect_answered};
ghost use Rattle.worker.specs.Steps.{taken, handled, step, Stepped};

use cycles::polling::{checking, finish, polls, reading, writing};
use engine::{Engine, with_clock};
use heads::progress::{After, Phase};
use refusals::Refusal;
use replies::at::At;
use replies::losing::{backing_off, disconnected, down, phased, staling, top};
use replies::response::{Response, Said};
use step_answers::answers::{
    back_applied, backed_off, connected, descriptions, open_version, opened, read_back, results,
    round_version, waited, written,
};
use step_checks::answer::{Answer, Kind};
use step_checks::awaiting::step_check;

#[tactic(auto, using(step_checks::proofs::KindLaws::not_opened))]
fn connect<'a>(board: &mut [u8], out: &mut [u8], e: Engine, a: Answer<'a>) -> Said
    requires { IsBoard board.old }
    ensures { Done (connect_answered (worker e (board_in board.old)) (answer a.entry)) result board.new out.old out.new }
{
    if let Kind::Opened = a.kind {
        return opened(board, out, e);
    }
    down(board, out, e)
}

// An event was taken.
#[tactic(auto, unfolding(crate::specs::Steps::taken))]
fn taken(board: &mut [u8], out: &mut [u8], e: Engine, p: Phase, at: At) -> Said
    requires { IsBoard board.old }
    ensures { Done (taken p (worker e (board_in board.old)) at) result board.new out.old out.new }
{
    let after = e.progress.after;
    match p {
        Phase::OpenFailedTold => phased(e, Phase::OpenVersion, Response::Version),
        Phase::OpenMetaTold => connected(e),
        Phase::ConnectedTold => polls(e),
        Phase::MetaTold => writing(board, out, e, at, After::Tail),
        Phase::ValuesTold => reading(board, out, e, at),
        Phase::InfoTold => checking(board, out, e, at),
        Phase::RefusedTold | Phase::BackTold => writing(board, out, e, at, after),
        Phase::LostTold => down(board, out, e),
        Phase::OutcomeTold => back_applied(board, out, e, at),
        Phase::FailedTold => staling(board, out, e),
        Phase::StaleTold => disconnected(e),
        Phase::DisconnectedTold => backing_off(e),
        Phase::ConnectingTold => top(board, out, e),
        // These wait for no event, and none comes here.
        Phase::Begin
        | Phase::Connect
        | Phase::OpenVersion
        | Phase::Version
        | Phase::Read
        | Phase::Describe
        | Phase::Write
        | Phase::ReadBack
        | Phase::Wait
        | Phase::Backoff
        | Phase::Stopped => top(board, out, e),
    }
}

// An accepted answer, by the phase that waited for it.
#[tactic(auto, unfolding(crate::specs::Steps::handled))]
fn handled<'a>(board: &mut [u8], out: &mut [u8], e: Engine, p: Phase, a: Answer<'a>, at: At) -> Said
    requires { IsBoard board.old }
    ensures { Done (handled p (worker e (board_in board.old)) at (answer a.entry)) result board.new out.old out.new }
{
    match p {
        Phase::Begin => top(board, out, e),
        Phase::Connect => connect(board, out, e, a),
        Phase::OpenVersion => open_version(board, e, a),
        Phase::Version => round_version(board, out, e, a, at),
        Phase::Read => results(board, out, e, a, at),
        Phase::Describe => descriptions(board, out, e, a),
        Phase::Write => written(board, out, e, a),
        Phase::ReadBack => read_back(board, e, a),
        Phase::Wait => waited(board, out, e, at),
        Phase::Backoff => backed_off(board, out, e),
        _ => taken(board, out, e, p, at),
    }
}

// A step; a refusal changes nothing.
pub fn step<'a>(
    board: &mut [u8],
    out: &mut [u8],
    e: Engine,
    a: Answer<'a>,
    at: At,
) -> Result<Said, Refusal>
    requires { IsBoard board.old }
    ensures { Stepped (worker e (board_in board.old)) (step (worker e (board_in board.old)) at (answer a.entry) (length out.old)) result board.old board.new out.old out.new }
{
    if let Err(refusal) = step_check(board, e, a, at, out.len()) {
        return Err(refusal);
    }
    let clocked = with_clock(e, at.clock);
    let s = handled(board, out, clocked, e.progress.phase, a, at);
    Ok(finish(board, out, s, at))
}
