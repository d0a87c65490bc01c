// What a call answered, compared with what was recorded.
ghost use Rattle.std.specs.Prelude.{◌≡◌};
ghost use Rattle.frames.specs.Answer.{byte, compare_numbers, compare_list, compare};

use crate::compare::{parting, unlike};
use crate::numbers::eight;
use crate::parts::{Malformed, Reader};
use std::fmt;

// Every byte of a lent list before its call.
pub const BEFORE: u8 = 0xa5;

// The number or the byte of the lent list that differs, what it is, and what was recorded.
#[derive(Clone, Copy)]
pub enum Difference {
    Cell {
        index: usize,
        is: u64,
        recorded: u64,
    },
    Byte {
        index: usize,
        is: u8,
        recorded: u8,
    },
    Malformed,
}

impl From<Malformed> for Difference {
    ghost use Rattle.std.specs.Prelude.{◌≡◌};
    ghost use Rattle.frames.specs.declared.answer.Difference.TheVariants.{Malformed as MalformedFrame};

    ghost from_gives = { λ _ difference. difference ≡ MalformedFrame };

    fn from(_: Malformed) -> Difference {
        Difference::Malformed
    }
}

impl fmt::Display for Difference {
    fn fmt<W: fmt::Write>(&self, f: &mut fmt::Formatter<W>) -> fmt::Result {
        match self {
            Difference::Cell {
                index,
                is,
                recorded,
            } => write!(f, "cell {index} is {is}, recorded {recorded}"),
            Difference::Byte {
                index,
                is,
                recorded,
            } => write!(f, "list byte {index} is {is}, recorded {recorded}"),
            Difference::Malformed => write!(f, "the frame is malformed"),
        }
    }
}

// A recorded number has eight bytes; fewer behind the last one are passed over.
fn compare_numbers(numbers: &[u64], recorded: &[u8]) -> Result<(), Difference>
    ensures { result ≡ compare_numbers numbers.now recorded.now }
{
    for index in 0..numbers.len() {
        if recorded.len() / 8 <= index {
            return Err(Difference::Malformed);
        }
        let is = numbers[index];
        let recorded = eight(recorded, 8 * index);
        if is != recorded {
            return Err(Difference::Cell {
                index,
                is,
                recorded,
            });
        }
    }
    if recorded.len() / 8 != numbers.len() {
        return Err(Difference::Malformed);
    }
    Ok(())
}

fn byte(out: &[u8], index: usize, recorded: u8) -> Difference
    ensures { result ≡ byte out.now index recorded }
{
    let is = out.get(index).copied().unwrap_or(BEFORE);
    Difference::Byte {
        index,
        is,
        recorded,
    }
}

// What was recorded stands at the front; behind it all is as before.
fn compare_list(out: &[u8], recorded: &[u8]) -> Result<(), Difference>
    ensures { result ≡ compare_list out.now recorded.now }
{
    let n = recorded.len();
    let i = parting(recorded, out);
    if i < n {
        return Err(byte(out, i, recorded[i]));
    }
    let behind = &out[n..];
    let j = unlike(behind, BEFORE);
    if j < behind.len() {
        return Err(byte(out, n + j, BEFORE));
    }
    Ok(())
}

// What a call answered, its numbers and its lent list, held to what its frame has next: how many bytes were compared.
// The numbers are compared first, then the list.
pub fn compare(numbers: &[u64], out: &[u8], frame: Reader) -> Result<usize, Difference>
    ensures { result ≡ compare numbers.now out.now frame.entry.rest.now }
{
    let mut frame = frame;
    let answer = frame.list()?;
    let list = frame.list()?;
    if !frame.rest.is_empty() {
        return Err(Difference::Malformed);
    }
    compare_numbers(numbers, answer)?;
    compare_list(out, list)?;
    Ok(answer.len() + out.len())
}
