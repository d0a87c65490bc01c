// Creation and the calls that change an engine. Each reads its parameters from its frame, in their order.
ghost use Rattle.std.specs.Prelude.{◌≡◌, ◌≤◌, ◌<◌, ◌*◌, length, drop, get_or, MatchResult};
ghost use Rattle.frames.specs.Numbers.{eight_at};
ghost use Rattle.std.specs.Float.{binary64};
ghost use Rattle.std.specs.Float.Ieee.{of_bits};
ghost use Rattle.words.specs.Value.{value_from};
ghost use Rattle.checks.specs.Calls.{tier_check, load_check, write_check};
ghost use Rattle.capi.specs.Memory.{Called, worker_in};
ghost use Rattle.capi.specs.Calls.{tiered, loaded, wrote, halted};
ghost use Rattle.replay.specs.Answers.{low, first, second, third, second_list, ends_in};

use arrayvec::ArrayVec;
use capi::calls::{wz_load, wz_set_tier, wz_step, wz_stop, wz_write};
use capi::creation::wz_create;
use frames::parts::{Malformed, Reader};
use heads::options::Options;
use names::directory::MAX_NAMES;
use words::scalar::{float_of_word, int_of_word, word_of_float};

// Room for the ends of a directory; a refused one has more than there may be names.
const ENDS: usize = MAX_NAMES + 8;

fn float(frame: &mut Reader) -> Result<f64, Malformed>
    ensures { MatchResult result (λ x. (x ≡ of_bits binary64 (eight_at frame.old.rest.now 0)) × (frame.new.rest.now ≡ drop 8 frame.old.rest.now)) (λ _. length frame.old.rest.now < 8) }
{
    Ok(float_of_word(frame.eight()?))
}

pub fn small(frame: &mut Reader) -> Result<u32, Malformed>
    ensures { MatchResult result (λ n. (8 ≤ length frame.old.rest.now) × (n ≡ low (eight_at frame.old.rest.now 0)) × (frame.new.rest.now ≡ drop 8 frame.old.rest.now)) (λ _. (length frame.old.rest.now < 8) × (frame.new.rest.now ≡ frame.old.rest.now)) }
{
    Ok((frame.eight()? % 0x1_0000_0000) as u32)
}

fn options(frame: &mut Reader) -> Result<Options, Malformed> {
    Ok(Options {
        cycle: float(frame)?,
        period: float(frame)?,
        grace: float(frame)?,
    })
}

// The numbers of four bytes in a list; fewer bytes behind the last one are passed over.
fn ends_in(list: &[u8]) -> Result<ArrayVec<u32, ENDS>, Malformed>
    ensures { MatchResult result (λ ends. (length list.now ≤ 4 * ENDS) × (ends.items ≡ ends_in list.now)) (λ _. 4 * ENDS < length list.now) }
{
    if list.len() > 4 * ENDS {
        return Err(Malformed);
    }
    let (numbers, _) = list.as_chunks::<4>();
    let mut ends = ArrayVec::new();
    for number in numbers {
        ends.push(u32::from_le_bytes(*number));
    }
    Ok(ends)
}

pub fn create(frame: &mut Reader, mem: &mut [u8]) -> Result<[u64; 1], Malformed> {
    let options = options(frame)?;
    let names = frame.list()?;
    let ends = ends_in(frame.list()?)?;
    let settings = frame.list()?;
    let groups = frame.list()?;
    let code = wz_create(mem, names, ends.as_slice(), options, settings, groups);
    Ok([u64::from(code)])
}

pub fn set_tier(frame: &mut Reader, mem: &mut [u8]) -> Result<[u64; 1], Malformed>
    ensures { MatchResult result (λ ns. Called mem.old mem.new (get_or ns 0 0) (tier_check (worker_in mem.old) (of_bits binary64 (first frame.old.rest.now)) (low (second frame.old.rest.now)) (low (third frame.old.rest.now))) (tiered (worker_in mem.old) (of_bits binary64 (first frame.old.rest.now)) (low (second frame.old.rest.now)) (low (third frame.old.rest.now)))) (λ _. mem.new ≡ mem.old) }
{
    let code = wz_set_tier(mem, float(frame)?, small(frame)?, small(frame)?);
    Ok([u64::from(code)])
}

pub fn load(frame: &mut Reader, mem: &mut [u8]) -> Result<[u64; 1], Malformed>
    ensures { MatchResult result (λ ns. Called mem.old mem.new (get_or ns 0 0) (load_check (worker_in mem.old) (of_bits binary64 (first frame.old.rest.now)) (second_list frame.old.rest.now)) (loaded (worker_in mem.old) (of_bits binary64 (first frame.old.rest.now)) (second_list frame.old.rest.now))) (λ _. mem.new ≡ mem.old) }
{
    let code = wz_load(mem, float(frame)?, frame.list()?);
    Ok([u64::from(code)])
}

pub fn write(frame: &mut Reader, mem: &mut [u8]) -> Result<[u64; 1], Malformed>
    ensures { MatchResult result (λ ns. Called mem.old mem.new (get_or ns 0 0) (write_check (worker_in mem.old) (low (first frame.old.rest.now)) (value_from (second frame.old.rest.now) (third frame.old.rest.now))) (wrote (worker_in mem.old) (low (first frame.old.rest.now)) (value_from (second frame.old.rest.now) (third frame.old.rest.now)))) (λ _. mem.new ≡ mem.old) }
{
    let code = wz_write(mem, small(frame)?, frame.eight()?, frame.eight()?);
    Ok([u64::from(code)])
}

pub fn stop(mem: &mut [u8]) -> [u64; 1]
    ensures { Called mem.old mem.new (get_or result 0 0) 0 (halted (worker_in mem.old)) }
{
    [u64::from(wz_stop(mem))]
}

pub fn step(frame: &mut Reader, mem: &mut [u8], out: &mut [u8]) -> Result<[u64; 10], Malformed> {
    let r = wz_step(
        mem,
        float(frame)?,
        int_of_word(frame.eight()?),
        frame.eight()?,
        frame.eight()?,
        frame.eight()?,
        frame.list()?,
        out,
    );
    Ok([
        r.code,
        r.kind,
        r.count,
        r.tag,
        r.what,
        r.value,
        r.word,
        r.error,
        r.message,
        word_of_float(r.seconds),
    ])
}
