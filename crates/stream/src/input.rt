// Lines from standard input, read in pieces.
use super::calls::take_call;
use super::setup::{Names, options};
use super::state::{Stage, Stop};
use arrayvec::ArrayVec;
use listing::line::{Line, parse};
use std::io::Read;

// The longest line of any form has 49 bytes.
const LINE: usize = 64;

// The bytes of a board for MAX_NAMES tags.
const BOARD: usize = 34806;

// `line` is what has come of the next line, and `board` is all zero at the start. The memory is fixed,
// since whoever lists is asked for no allocator.
#[derive(Drop)]
struct Listing {
    stage: Stage,
    line: ArrayVec<u8, LINE>,
    names: Names,
    board: [u8; BOARD],
}

impl Listing {
    fn new() -> Listing {
        Listing {
            stage: Stage::Start,
            line: ArrayVec::new(),
            names: Names::new(),
            board: [0; BOARD],
        }
    }

    // What a whole line does.
    fn take_line(&mut self, rt: &impl Print) -> Result<Stage, Stop> {
        let line = self.line.as_slice();
        match (parse(line), self.stage) {
            (Line::Options(cycle, period, grace), Stage::Start) => options(cycle, period, grace),
            (Line::Name, Stage::Names(_)) => {
                self.names.push(&line[2..])?;
                Ok(self.stage)
            }
            (call @ (Line::Set(..) | Line::Round(_)), stage) => {
                take_call(rt, stage, call, &self.names, &mut self.board)
            }
            _ => Err(Stop::Refused),
        }
    }

    fn take_byte(&mut self, rt: &impl Print, b: u8) -> Result<(), Stop> {
        if self.line.is_full() {
            return Err(Stop::Refused);
        }
        if b != b'\n' {
            self.line.push(b);
            return Ok(());
        }
        self.stage = self.take_line(rt)?;
        self.line.clear();
        Ok(())
    }

    fn take_piece(&mut self, rt: &impl Print, piece: &[u8]) -> Result<(), Stop> {
        for b in piece {
            self.take_byte(rt, *b)?;
        }
        Ok(())
    }
}

// A proved loop has to end, and nothing says that the input does: the turns are more than any run has.
// At the end there is nothing more to do: a line without its line feed is of another form.
pub fn read_input(rt: &(impl Input + Print)) -> Result<(), Stop> {
    let mut from = rt.reader();
    let mut piece = [0u8; 4096];
    let mut listing = Listing::new();
    for _ in 0..u64::MAX {
        let n = from.read(&mut piece)?;
        if n == 0 {
            return Ok(());
        }
        listing.take_piece(rt, &piece[..n])?;
    }
    Ok(())
}
