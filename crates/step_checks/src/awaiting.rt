// The checks of a step.
ghost use Rattle.std.specs.Prelude.{◌≡◌};
ghost use Rattle.refusals.specs.Refusals.{code};
ghost use Rattle.board.specs.Board.{board_in};
ghost use Rattle.board.specs.Layout.{IsBoard};
ghost use Rattle.replies.specs.Worker.{worker};
ghost use Rattle.step_checks.specs.Awaited.{answer, awaited, answers, contents, step_check};

use super::answer::{Answer, Kind, is_error};
use board::tag_lists::asked_count;
use engine::Engine;
use heads::progress::Phase;
use lent::changes::CHANGE;
use names::directory::MAX_NAMES;
use refusals::Refusal;
use replies::at::At;

// What a phase waits for.
#[derive(Clone, Copy)]
pub enum Wait {
    Begin,
    Connect,
    Version,
    Results,
    Write,
    Descriptions,
    Time,
    Taken,
    Nothing,
}

#[tactic(auto, unfolding(crate::specs::Awaited::awaited))]
fn awaited(p: Phase) -> Wait
    ensures { result ≡ awaited p }
{
    match p {
        Phase::Begin => Wait::Begin,
        Phase::Connect => Wait::Connect,
        Phase::OpenVersion | Phase::Version => Wait::Version,
        Phase::Read | Phase::ReadBack => Wait::Results,
        Phase::Write => Wait::Write,
        Phase::Describe => Wait::Descriptions,
        Phase::Wait | Phase::Backoff => Wait::Time,
        Phase::Stopped => Wait::Nothing,
        _ => Wait::Taken,
    }
}

#[tactic(auto, unfolding(crate::specs::Awaited::answers))]
fn answers(wait: Wait, kind: Kind) -> bool
    ensures { result ≡ answers wait kind }
{
    match wait {
        Wait::Begin => matches!(kind, Kind::Begin),
        Wait::Connect => matches!(kind, Kind::Opened | Kind::NotOpened),
        Wait::Version => matches!(kind, Kind::Version(_)),
        Wait::Results => matches!(kind, Kind::Results | Kind::Lost),
        Wait::Write => match kind {
            Kind::Written | Kind::Lost => true,
            Kind::Refused(error, _) => is_error(error),
            _ => false,
        },
        Wait::Descriptions => matches!(kind, Kind::Descriptions | Kind::NotDescribed),
        Wait::Time => matches!(kind, Kind::Waited),
        Wait::Taken => matches!(kind, Kind::Taken),
        Wait::Nothing => false,
    }
}

// Check 14 of a version's settings, and check 42 of the results that are covered.
#[tactic(auto, unfolding(crate::specs::Awaited::contents))]
fn contents<'a>(board: &[u8], e: Engine, a: Answer<'a>) -> Result<(), Refusal>
    requires { IsBoard board.now }
    ensures { code result ≡ contents (worker e (board_in board.now)) (answer a.entry) }
{
    match a.kind {
        Kind::Version(_) => {
            if !settings::setting::check_settings(a.list, e.count as usize) {
                return Err(Refusal::Settings);
            }
        }
        Kind::Results => {
            if !results::check::check_results(a.list, asked_count(board)) {
                return Err(Refusal::NotFinite);
            }
        }
        _ => {}
    }
    Ok(())
}

// The first check that refuses a step.
#[tactic(auto, unfolding(crate::specs::Awaited::step_check))]
pub fn step_check<'a>(
    board: &[u8],
    e: Engine,
    a: Answer<'a>,
    at: At,
    room: usize,
) -> Result<(), Refusal>
    requires { IsBoard board.now }
    ensures { code result ≡ step_check (worker e (board_in board.now)) at (answer a.entry) room }
{
    if room / CHANGE < MAX_NAMES {
        return Err(Refusal::ListRoom);
    }
    if !ieee::times::is_clock(at.clock) {
        return Err(Refusal::Clock);
    }
    if at.clock < e.clock {
        return Err(Refusal::ClockBehind);
    }
    if !answers(awaited(e.progress.phase), a.kind) {
        return Err(Refusal::NotAwaited);
    }
    contents(board, e, a)
}
