// Lent runs of records, for any record: one of a run, and a run filled from the front. The callers that take a run of one
// type of record pass it to these.
#![tactic(auto)]

ghost use Rattle.std.specs.Prelude.{◌≡◌, get_or, length};
ghost use Rattle.runs.specs.Run.{filled, answer};

use arrayvec::ArrayVec;

// A run with fewer places than there may be records.
#[derive(Clone, Copy, Debug)]
pub struct TooShort;

// One of a run; past its end `none`.
pub fn at<S: Copy>(run: &[S], i: usize, none: S) -> S
    ensures { result ≡ get_or run.now i none }
{
    run.get(i).copied().unwrap_or(none)
}

// The records over the first places of `out`; the places past them keep their contents. A run with fewer than K places is
// refused, and left as it was.
pub fn fill<S: Copy, const K: usize>(out: &mut [S], from: &ArrayVec<S, K>) -> Result<(), TooShort>
    ensures { (result ≡ answer K out.old) × (out.new ≡ filled K (length from.now.items) from.now.items out.old) }
{
    if out.len() < K {
        return Err(TooShort);
    }
    out[..from.len()].copy_from_slice(from.as_slice());
    Ok(())
}
