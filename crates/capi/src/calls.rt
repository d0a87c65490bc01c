// Tier calls, loads, writes, stops and steps. Each checks, lends the board to the rule, and stores the head.
ghost use Rattle.std.specs.Prelude.{length};
ghost use Rattle.words.specs.Value.{value_from};
ghost use Rattle.replies.specs.Worker.{at};
ghost use Rattle.worker.specs.Steps.{step};
ghost use Rattle.capi.specs.Memory.{worker_in, Called};
ghost use Rattle.checks.specs.Calls.{tier_check, load_check, write_check};
ghost use Rattle.capi.specs.Calls.{tiered, loaded, wrote, halted, answer_of, Stepped};

use super::whole::{
    head_of, load_check, load_panel, push_write, put_clock, put_head, set_tier, size_check,
    write_check,
};
use checks::calls::tier_check;
use engine::with_link;
use heads::link::stopped;
use queue::Write;
use replies::at::At;
use replies::reply::Reply;
use step_checks::answer::{Answer, kind_from};
use words::value::value_from;

// A tier call.
pub fn wz_set_tier(mem: &mut [u8], clock: f64, tag: u32, tier: u32) -> u32
    ensures { Called mem.old mem.new result (tier_check (worker_in mem.old) clock tag tier) (tiered (worker_in mem.old) clock tag tier) }
{
    if let Err(refusal) = size_check(mem.len()) {
        return refusal.number();
    }
    let e = head_of(mem);
    if let Err(refusal) = tier_check(e, clock, tag, tier) {
        return refusal.number();
    }
    set_tier(mem, tag as u16, tier as u8, e.options.grace, clock);
    put_clock(mem, clock);
    0
}

// A panel list loaded.
pub fn wz_load(mem: &mut [u8], clock: f64, list: &[u8]) -> u32
    ensures { Called mem.old mem.new result (load_check (worker_in mem.old) clock list.now) (loaded (worker_in mem.old) clock list.now) }
{
    if let Err(refusal) = size_check(mem.len()) {
        return refusal.number();
    }
    let e = head_of(mem);
    if let Err(refusal) = load_check(mem, e, clock, list) {
        return refusal.number();
    }
    load_panel(mem, list, e.options.grace, clock);
    put_clock(mem, clock);
    0
}

// A write queued; the value is its kind and its bits.
pub fn wz_write(mem: &mut [u8], tag: u32, kind: u64, word: u64) -> u32
    ensures { Called mem.old mem.new result (write_check (worker_in mem.old) tag (value_from kind word)) (wrote (worker_in mem.old) tag (value_from kind word)) }
{
    if let Err(refusal) = size_check(mem.len()) {
        return refusal.number();
    }
    let value = value_from(kind, word);
    if let Err(refusal) = write_check(mem, tag, value) {
        return refusal.number();
    }
    let w = Write {
        tag: tag as u16,
        value,
    };
    push_write(mem, w);
    0
}

// A stop asked for.
pub fn wz_stop(mem: &mut [u8]) -> u32
    ensures { Called mem.old mem.new result 0 (halted (worker_in mem.old)) }
{
    if let Err(refusal) = size_check(mem.len()) {
        return refusal.number();
    }
    let e = head_of(mem);
    let link = stopped(e.link);
    put_head(mem, with_link(e, link));
    0
}

// A step: one answer of the host, with its list in `list`; a list that the step gives goes into `out`.
pub fn wz_step(
    mem: &mut [u8],
    clock: f64,
    wall: i64,
    kind: u64,
    number: u64,
    message: u64,
    list: &[u8],
    out: &mut [u8],
) -> Reply
    ensures { Stepped mem.old mem.new result out.old out.new (step (worker_in mem.old) (at clock wall) (answer_of kind number message list.now) (length out.old)) }
{
    if let Err(refusal) = size_check(mem.len()) {
        return Reply::refused(refusal);
    }
    let e = head_of(mem);
    let a = Answer {
        kind: kind_from(kind, number, message),
        list,
    };
    match super::whole::step(mem, out, e, a, At { clock, wall }) {
        Ok(s) => {
            put_head(mem, s.head);
            s.response.reply()
        }
        Err(refusal) => Reply::refused(refusal),
    }
}
