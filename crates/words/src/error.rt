// An error as two words.
ghost use Rattle.std.specs.Prelude.{◌≡◌, ◌+◌};
ghost use Rattle.values.specs.Error.{kind_number};
ghost use Rattle.words.specs.Error.{kind_from, error_from, error_words_of};

use values::error::{ErrorKind, TagError};

// kind: 0 for none, and otherwise the kind's number and 1.
#[derive(Clone, Copy)]
pub struct ErrorWords {
    pub kind: u64,
    pub message: u64,
}

// No `From`: the number is one of many that a `u64` may be.
fn kind_from(n: u64) -> ErrorKind
    ensures { result ≡ kind_from n }
{
    if n == 2 {
        return ErrorKind::Access;
    }
    if n < 3 {
        return ErrorKind::NotFound;
    }
    ErrorKind::Other(((n - 3) % 0x1_0000) as u16)
}

// Not 0, which stands for no error.
fn kind_word(k: ErrorKind) -> u64
    ensures { (kind_from result ≡ k) × (result ≡ kind_number k + 1) }
{
    match k {
        ErrorKind::NotFound => 1,
        ErrorKind::Access => 2,
        ErrorKind::Other(code) => code as u64 + 3,
    }
}

pub fn error_from(kind: u64, message: u64) -> Option<TagError>
    ensures { result ≡ error_from kind message }
{
    if kind == 0 {
        return None;
    }
    Some(TagError {
        kind: kind_from(kind),
        message: (message % 0x1_0000_0000) as u32,
    })
}

impl From<Option<TagError>> for ErrorWords {
    ghost from_gives = { λ e words. (error_from words.kind words.message ≡ e) × (words ≡ error_words_of e) };

    fn from(e: Option<TagError>) -> ErrorWords {
        match e {
            None => ErrorWords {
                kind: 0,
                message: 0,
            },
            Some(x) => ErrorWords {
                kind: kind_word(x.kind),
                message: x.message as u64,
            },
        }
    }
}
