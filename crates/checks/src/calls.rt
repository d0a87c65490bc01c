// Tier calls, loads and writes.
ghost use Rattle.std.specs.Prelude.{◌≡◌};
ghost use Rattle.refusals.specs.Refusals.{code};
ghost use Rattle.board.specs.Board.{Board, board_in};
ghost use Rattle.replies.specs.Worker.{worker};
ghost use Rattle.board.specs.Layout.{IsBoard};
ghost use Rattle.checks.specs.Calls.{clock_check, tier_check, load_check, write_check};

use board::tag_lists::order_count;
use board::waiting::queued;
use engine::Engine;
use heads::link::{State, is_state};
use ieee::times::is_clock;
use refusals::Refusal;
use results::check::is_finite_value;
use values::value::Value;

fn clock_check(e: Engine, clock: f64) -> Result<(), Refusal>
    ensures { (B : Board) → code result ≡ clock_check (worker e B) clock }
{
    if !is_clock(clock) {
        return Err(Refusal::Clock);
    }
    if clock < e.clock {
        return Err(Refusal::ClockBehind);
    }
    Ok(())
}

pub fn tier_check(e: Engine, clock: f64, tag: u32, tier: u32) -> Result<(), Refusal>
    ensures { (B : Board) → code result ≡ tier_check (worker e B) clock tag tier }
{
    if let Err(refusal) = clock_check(e, clock) {
        return Err(refusal);
    }
    if e.count as u32 <= tag {
        return Err(Refusal::Tag);
    }
    if 3 < tier {
        return Err(Refusal::Tier);
    }
    Ok(())
}

pub fn load_check(board: &[u8], e: Engine, clock: f64, list: &[u8]) -> Result<(), Refusal>
    requires { IsBoard board.now }
    ensures { code result ≡ load_check (worker e (board_in board.now)) clock list.now }
{
    if let Err(refusal) = clock_check(e, clock) {
        return Err(refusal);
    }
    if let Err(refusal) = panel::check::check_panel(list, e.count as usize) {
        return Err(refusal);
    }
    if order_count(board) == 0 {
        return Ok(());
    }
    Err(Refusal::TierHeld)
}

pub fn write_check(board: &[u8], e: Engine, tag: u32, value: Value) -> Result<(), Refusal>
    requires { IsBoard board.now }
    ensures { code result ≡ write_check (worker e (board_in board.now)) tag value }
{
    if e.count as u32 <= tag {
        return Err(Refusal::Tag);
    }
    if !is_state(e.link, State::Connected) {
        return Err(Refusal::NotConnected);
    }
    if 32 <= queued(board) {
        return Err(Refusal::QueueFull);
    }
    if is_finite_value(value) {
        return Ok(());
    }
    Err(Refusal::NotFinite)
}
