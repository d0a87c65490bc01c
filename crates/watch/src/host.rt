// What the host answers: connecting succeeds, no version, no descriptions, and the readings of two rounds; the third
// reading is lost, and so is every attempt to connect again.
use memory::cells::put_cell;
use replies::reply::Reply;
use step_checks::answer::Kind;

// A reading is four cells: the value's kind and word, the error's word and its message.
const CELLS: usize = 4;

// The readings of four tags, in bytes.
pub const RESULTS: usize = 128;

// `rounds` is how many readings were asked for.
#[derive(Clone, Copy, Default)]
pub struct Host {
    pub clock: f64,
    pub rounds: u64,
}

// The cells of a value without an error, and of an error without a value; neither has a message.
fn value(kind: u64, word: u64) -> [u64; CELLS] {
    [kind, word, 0, 0]
}

fn error(word: u64) -> [u64; CELLS] {
    [0, 0, word, 0]
}

// A float at first, then a failure with the driver's own code 7.
fn level(rounds: u64) -> [u64; CELLS] {
    if rounds == 1 {
        value(3, f64::to_bits(2.5))
    } else {
        error(10)
    }
}

impl Host {
    // The wall time is the clock's, in milliseconds.
    pub fn wall(self) -> i64 {
        let ms = ieee::round::to_u64(ieee::round::round_ties_even(self.clock * 1000.0));
        (ms % 0x1_0000_0000) as i64
    }

    // A bool, an integer that changes, the level, and a tag that is not found.
    pub fn readings(self) -> [u8; RESULTS] {
        let mut list = [0u8; RESULTS];
        let readings = [
            value(1, 1),
            value(2, self.rounds),
            level(self.rounds),
            error(1),
        ];
        for (i, cell) in readings.as_flattened().iter().enumerate() {
            put_cell(&mut list, i, *cell);
        }
        list
    }

    // The kind of the answer to a request or an event, as numbers of the C interface, where `rounds` counts a reading asked for now.
    pub fn answer(self, kind: u64) -> u64 {
        match kind {
            Reply::CONNECT if self.rounds == 0 => Kind::OPENED,
            Reply::CONNECT => Kind::NOT_OPENED,
            Reply::VERSION => Kind::NO_VERSION,
            Reply::READ if self.rounds < 3 => Kind::RESULTS,
            Reply::READ => Kind::LOST,
            Reply::DESCRIBE => Kind::NOT_DESCRIBED,
            Reply::WAIT => Kind::WAITED,
            _ => Kind::TAKEN,
        }
    }

    // What the host has come to when it answers a request.
    pub fn after(self, r: Reply) -> Host {
        match r.kind {
            Reply::WAIT => Host {
                clock: self.clock + r.seconds,
                ..self
            },
            Reply::READ => Host {
                rounds: self.rounds % 0x1_0000 + 1,
                ..self
            },
            _ => self,
        }
    }
}
