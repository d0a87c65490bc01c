// One frame: its call is made, and the answer compared. The frame, the memory and the list stay parameters: a struct that
// held the two lent `&mut` was tried, and the proof of its methods did not close.
use crate::{calls, looks};
use frames::answer::{BEFORE, Difference, compare};
use frames::calls::Call;
use frames::compare::fill;
use frames::parts::{Malformed, Reader};

// The call takes its numbers and lists from the frame, whose answer stands behind them.
fn make(
    call: Call,
    mut frame: Reader,
    mem: &mut [u8],
    out: &mut [u8],
) -> Result<usize, Difference> {
    match call {
        Call::Create => compare(&calls::create(&mut frame, mem)?, out, frame),
        Call::SetTier => compare(&calls::set_tier(&mut frame, mem)?, out, frame),
        Call::Load => compare(&calls::load(&mut frame, mem)?, out, frame),
        Call::Write => compare(&calls::write(&mut frame, mem)?, out, frame),
        Call::Stop => compare(&calls::stop(mem), out, frame),
        Call::Step => compare(&calls::step(&mut frame, mem, out)?, out, frame),
        Call::State => compare(&looks::state(mem), out, frame),
        Call::Stats => compare(&looks::stats(mem), out, frame),
        Call::TierCounts => compare(&looks::tier_counts(mem), out, frame),
        Call::GroupStats => compare(&looks::group_stats(mem, out), out, frame),
        Call::Table => compare(&looks::table(mem, out), out, frame),
        Call::Panel => compare(&looks::panel(mem, out), out, frame),
        Call::Tag => compare(&looks::tag(&mut frame, mem)?, out, frame),
    }
}

// As much memory is lent, and a list as long, as the frame says.
pub fn take(
    call: Call,
    mut frame: Reader,
    mem: &mut [u8],
    out: &mut [u8],
) -> Result<usize, Difference> {
    let m = frame.four()?;
    let n = frame.four()?;
    let mem = mem.get_mut(..m).ok_or(Malformed)?;
    let out = out.get_mut(..n).ok_or(Malformed)?;
    fill(out, BEFORE);
    make(call, frame, mem, out)
}
