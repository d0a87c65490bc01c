// A clock reading, or none, as two words.
ghost use Rattle.std.specs.Prelude.{◌≡◌};
ghost use Rattle.words.specs.Time.{time_from};

use super::scalar::{float_of_word, word_of_float};

// known: 0 where there is none.
#[derive(Clone, Copy)]
pub struct TimeWords {
    pub known: u64,
    pub word: u64,
}

pub fn time_from(known: u64, word: u64) -> Option<f64>
    ensures { result ≡ time_from known word }
{
    if known == 0 {
        return None;
    }
    Some(float_of_word(word))
}

impl From<Option<f64>> for TimeWords {
    ghost from_gives = { λ t words. time_from words.known words.word ≡ t };

    fn from(t: Option<f64>) -> TimeWords {
        match t {
            None => TimeWords { known: 0, word: 0 },
            Some(x) => TimeWords {
                known: 1,
                word: word_of_float(x),
            },
        }
    }
}
