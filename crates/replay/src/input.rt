// The frames of standard input, each behind its length.
use crate::frame::take;
use frames::answer::Difference;
use frames::calls::Call;
use frames::counts::Counts;
use frames::numbers::eight;
use frames::parts::Reader;
use frames::report::{Ending, Report};
use lent::changes::CHANGE;
use names::directory::MAX_NAMES;
use std::io;
use std::io::{ErrorKind, Read};

// The last frame, with the number of histories and of calls. It names no call, so it stands beside `Call`.
const END: u8 = 14;

// Room for a frame, for an engine and some bytes more, and for the longest list and some bytes more.
const ROOM: usize = 16384;

const MEMORY: usize = 38408;

const LIST: usize = MAX_NAMES * CHANGE + 8;

// Fills the buffer; false where the input ends before.
fn read_full(from: &mut impl Read, buffer: &mut [u8]) -> io::Result<bool> {
    match from.read_exact(buffer) {
        Ok(()) => Ok(true),
        Err(e) if e.kind() == ErrorKind::UnexpectedEof => Ok(false),
        Err(e) => Err(e),
    }
}

// Reads a frame to the front of the room; none where there is no whole one.
fn read_frame<'a>(from: &mut impl Read, room: &'a mut [u8]) -> io::Result<Option<&'a [u8]>> {
    let mut length = [0u8; 4];
    if !read_full(from, &mut length)? {
        return Ok(None);
    }
    let Some(frame) = room.get_mut(..u32::from_le_bytes(length) as usize) else {
        return Ok(None);
    };
    Ok(read_full(from, frame)?.then_some(&*frame))
}

// An input that is replayed, how far, and the memory and the list that calls are lent: arrays, so that no heap is needed.
#[derive(Drop)]
pub struct Replay<I> {
    from: I,
    counts: Counts,
    room: [u8; ROOM],
    mem: [u8; MEMORY],
    out: [u8; LIST],
}

impl<I: Read> Replay<I> {
    pub fn new(from: I) -> Replay<I> {
        Replay {
            from,
            counts: Counts::default(),
            room: [0; ROOM],
            mem: [0; MEMORY],
            out: [0; LIST],
        }
    }

    // The last frame: all that was recorded has been replayed, and nothing is behind it.
    fn end(&mut self, histories: u64, calls: u64) -> io::Result<Ending> {
        let mut more = [0u8; 1];
        if histories != self.counts.histories
            || calls != self.counts.calls
            || read_full(&mut self.from, &mut more)?
        {
            return Ok(Ending::Uneven);
        }
        Ok(Ending::Done)
    }

    // Replays a frame: how the replay ends, if it does so there.
    fn next(&mut self) -> io::Result<Option<Ending>> {
        let Some(frame) = read_frame(&mut self.from, &mut self.room)? else {
            return Ok(Some(Ending::Cut));
        };
        let Some((n, fields)) = frame.split_first() else {
            return Ok(Some(Ending::Cut));
        };
        if *n == END {
            let histories = eight(fields, 0);
            let calls = eight(fields, 8);
            return self.end(histories, calls).map(Some);
        }
        let call = Call::try_from(*n).ok();
        self.counts = self.counts.next(call);
        let found = match call {
            Some(call) => take(call, Reader::new(fields), &mut self.mem, &mut self.out),
            None => Err(Difference::Malformed),
        };
        match found {
            Ok(compared) => {
                self.counts = self.counts.compared(compared);
                Ok(None)
            }
            Err(difference) => Ok(Some(Ending::Differs { call, difference })),
        }
    }

    // A proved loop has to end, and nothing says that the input does: the turns are more than any run has.
    pub fn run(&mut self) -> io::Result<Report> {
        for _ in 0..u64::MAX {
            if let Some(ending) = self.next()? {
                return Ok(Report {
                    counts: self.counts,
                    ending,
                });
            }
        }
        Ok(Report {
            counts: self.counts,
            ending: Ending::Cut,
        })
    }
}
