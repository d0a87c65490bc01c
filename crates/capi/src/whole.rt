// An engine's memory: the head in front, the board behind it. Each rule is lent its own part. That the memory is an engine's
// is a clause of each function, for the reason that `board` gives.
ghost use Rattle.std.specs.Prelude.{◌≡◌, ◌≤◌, length, take};
ghost use Rattle.engine.specs.Engine.{with_clock};
ghost use Rattle.tiers.specs.Tiers.{set_tier};
ghost use Rattle.panel.specs.Panel.{loaded_list};
ghost use Rattle.settings.specs.Configured.{given_groups};
ghost use Rattle.queue.specs.Queue.{queued_with, write_room};
ghost use Rattle.board.specs.Layout.{IsBoard};
ghost use Rattle.board.specs.Board.{with_table, with_queue, with_configured};
ghost use Rattle.fresh.specs.Fresh.{configured_room, fresh_board};
ghost use Rattle.refusals.specs.Refusals.{code};
ghost use Rattle.replies.specs.Worker.{worker, with_board};
ghost use Rattle.step_checks.specs.Awaited.{answer};
ghost use Rattle.worker.specs.Steps.{step};
ghost use Rattle.checks.specs.Calls.{load_check, write_check};
ghost use Rattle.names.specs.Directory.{max_names};
ghost use Rattle.capi.specs.Memory.{memory_size, size_check, IsEngine, board_bytes, worker_in};
ghost use Rattle.capi.specs.Calls.{SteppedBoard};

use board::starts::{is_board_size, size_for};
use engine::{Engine, load, store};
use names::directory::Directory;
use queue::Write;
use refusals::Refusal;
use replies::at::At;
use replies::response::Said;
use step_checks::answer::Answer;
use values::value::Value;

// The bytes of the head.
const HEAD: usize = 256;

// How many bytes an engine of so many tags has.
pub fn memory_size(count: usize) -> usize
    requires { count ≤ max_names }
    ensures { result ≡ memory_size count }
{
    HEAD + size_for(count)
}

// Whether an engine has n bytes. Each entry point asks this first, and answers a refusal in a type of its own.
pub fn size_check(n: usize) -> Result<(), Refusal>
    ensures { code result ≡ size_check n }
{
    if n < HEAD {
        return Err(Refusal::NotAnEngine);
    }
    if is_board_size(n - HEAD) {
        return Ok(());
    }
    Err(Refusal::NotAnEngine)
}

// Inline, as `load` is.
#[inline(always)]
pub fn head_of(mem: &[u8]) -> Engine
    requires { IsEngine mem.now }
    ensures { result ≡ (worker_in mem.now).head }
{
    load(&mem[0..HEAD])
}

pub fn board_of(mem: &[u8]) -> &[u8]
    requires { IsEngine mem.now }
    ensures { IsBoard result.now × (result.now ≡ board_bytes mem.now) }
{
    let end = mem.len();
    &mem[HEAD..end]
}

pub fn put_head(mem: &mut [u8], e: Engine)
    requires { IsEngine mem.old }
    ensures { worker_in mem.new ≡ worker e (worker_in mem.old).board }
{
    store(&mut mem[0..HEAD], e);
}

pub fn put_clock(mem: &mut [u8], clock: f64)
    requires { IsEngine mem.old }
    ensures { worker_in mem.new ≡ worker (with_clock (worker_in mem.old).head clock) (worker_in mem.old).board }
{
    engine::put_clock(&mut mem[0..HEAD], clock);
}

pub fn load_check(mem: &[u8], e: Engine, clock: f64, list: &[u8]) -> Result<(), Refusal>
    requires { IsEngine mem.now }
    ensures { code result ≡ load_check (worker e (worker_in mem.now).board) clock list.now }
{
    checks::calls::load_check(board_of(mem), e, clock, list)
}

pub fn write_check(mem: &[u8], tag: u32, value: Value) -> Result<(), Refusal>
    requires { IsEngine mem.now }
    ensures { code result ≡ write_check (worker_in mem.now) tag value }
{
    let e = head_of(mem);
    checks::calls::write_check(board_of(mem), e, tag, value)
}

pub fn set_tier(mem: &mut [u8], k: u16, tier: u8, grace: f64, clock: f64)
    requires { IsEngine mem.old }
    ensures { worker_in mem.new ≡ with_board (worker_in mem.old) (with_table (worker_in mem.old).board (set_tier (worker_in mem.old).board.table k tier grace clock)) }
{
    let end = mem.len();
    tiers::grace::set_tier(&mut mem[HEAD..end], k, tier, grace, clock);
}

pub fn load_panel(mem: &mut [u8], list: &[u8], grace: f64, clock: f64)
    requires { IsEngine mem.old }
    ensures { worker_in mem.new ≡ with_board (worker_in mem.old) (with_table (worker_in mem.old).board (loaded_list (worker_in mem.old).board.table list.now grace clock)) }
{
    let end = mem.len();
    panel::load::load_panel(&mut mem[HEAD..end], list, grace, clock);
}

pub fn push_write(mem: &mut [u8], w: Write)
    requires { IsEngine mem.old }
    ensures { worker_in mem.new ≡ with_board (worker_in mem.old) (with_queue (worker_in mem.old).board (queued_with write_room (worker_in mem.old).board.queue w)) }
{
    let end = mem.len();
    board::waiting::push_write(&mut mem[HEAD..end], w);
}

pub fn create<'a>(mem: &mut [u8], directory: Directory<'a>, settings: &[u8], groups: &[u8])
    requires mem_len { length mem.old ≡ memory_size (length directory.ends.now) }
    requires in_bounds { 1 ≤ length directory.ends.now }
    requires ends_len_bound { length directory.ends.now ≤ max_names }
    ensures { (worker_in mem.new).board ≡ with_configured (fresh_board directory.entry.names.now directory.entry.ends.now settings.now groups.now) (take configured_room (given_groups groups.now)) }
{
    let end = mem.len();
    fresh::create(&mut mem[HEAD..end], directory, settings, groups);
}

// A step on the board; the head that it leaves is in the answer, and not stored yet.
pub fn step<'a>(
    mem: &mut [u8],
    out: &mut [u8],
    e: Engine,
    a: Answer<'a>,
    at: At,
) -> Result<Said, Refusal>
    requires { IsEngine mem.old }
    ensures { SteppedBoard (worker e (worker_in mem.old).board) (step (worker e (worker_in mem.old).board) at (answer a.entry) (length out.old)) result mem.old mem.new out.old out.new }
{
    let end = mem.len();
    worker::steps::step(&mut mem[HEAD..end], out, e, a, at)
}
