// A value as two words.
ghost use Rattle.std.specs.Prelude.{◌≡◌};
ghost use Rattle.words.specs.Value.{value_from, value_words_of};

use super::scalar::{float_of_word, int_of_word, word_of_float, word_of_int};
use values::value::Value;

// kind: 0 null, 1 bool, 2 integer, 3 float.
#[derive(Clone, Copy)]
pub struct ValueWords {
    pub kind: u64,
    pub word: u64,
}

impl From<Value> for ValueWords {
    ghost from_gives = { λ v words. (value_from words.kind words.word ≡ v) × (words ≡ value_words_of v) };

    fn from(v: Value) -> ValueWords {
        match v {
            Value::Null => ValueWords { kind: 0, word: 0 },
            Value::Bool(b) => ValueWords {
                kind: 1,
                word: b as u64,
            },
            Value::Int(n) => ValueWords {
                kind: 2,
                word: word_of_int(n),
            },
            Value::Float(x) => ValueWords {
                kind: 3,
                word: word_of_float(x),
            },
        }
    }
}

// No `From`, as the words come as two cells of memory or of C.
pub fn value_from(kind: u64, word: u64) -> Value
    ensures { result ≡ value_from kind word }
{
    match kind {
        1 => Value::Bool(0 < word),
        2 => Value::Int(int_of_word(word)),
        3 => Value::Float(float_of_word(word)),
        _ => Value::Null,
    }
}
