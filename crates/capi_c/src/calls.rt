// Tier calls, loads, writes, stops and steps, as in `capi`.
ghost use Rattle.std.specs.Prelude.{length};
ghost use Rattle.words.specs.Value.{value_from};
ghost use Rattle.replies.specs.Worker.{at};
ghost use Rattle.worker.specs.Steps.{step};
ghost use Rattle.capi.specs.Memory.{worker_in, Called};
ghost use Rattle.checks.specs.Calls.{tier_check, load_check, write_check};
ghost use Rattle.capi.specs.Calls.{tiered, loaded, wrote, halted, answer_of, Stepped};

use capi::calls;
use replies::reply::Reply;

// A tier call.
#[unsafe(no_mangle)]
pub extern "C" fn wz_set_tier(mem: &mut [u8], clock: f64, tag: u32, tier: u32) -> u32
    ensures { Called mem.old mem.new result (tier_check (worker_in mem.old) clock tag tier) (tiered (worker_in mem.old) clock tag tier) }
{
    calls::wz_set_tier(mem, clock, tag, tier)
}

// A panel list loaded.
#[unsafe(no_mangle)]
pub extern "C" fn wz_load(mem: &mut [u8], clock: f64, list: &[u8]) -> u32
    ensures { Called mem.old mem.new result (load_check (worker_in mem.old) clock list.now) (loaded (worker_in mem.old) clock list.now) }
{
    calls::wz_load(mem, clock, list)
}

// A write queued; the value is its kind and its bits.
#[unsafe(no_mangle)]
pub extern "C" fn wz_write(mem: &mut [u8], tag: u32, kind: u64, word: u64) -> u32
    ensures { Called mem.old mem.new result (write_check (worker_in mem.old) tag (value_from kind word)) (wrote (worker_in mem.old) tag (value_from kind word)) }
{
    calls::wz_write(mem, tag, kind, word)
}

// A stop asked for.
#[unsafe(no_mangle)]
pub extern "C" fn wz_stop(mem: &mut [u8]) -> u32
    ensures { Called mem.old mem.new result 0 (halted (worker_in mem.old)) }
{
    calls::wz_stop(mem)
}

// A step: one answer of the host, with its list in `list`; a list that the step gives goes into `out`.
#[unsafe(no_mangle)]
pub extern "C" fn wz_step(
    mem: &mut [u8],
    clock: f64,
    wall: i64,
    kind: u64,
    number: u64,
    message: u64,
    list: &[u8],
    out: &mut [u8],
) -> Reply
    ensures { Stepped mem.old mem.new result out.old out.new (step (worker_in mem.old) (at clock wall) (answer_of kind number message list.now) (length out.old)) }
{
    calls::wz_step(mem, clock, wall, kind, number, message, list, out)
}
