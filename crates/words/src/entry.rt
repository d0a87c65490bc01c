// An entry, or none, as six words.
ghost use Rattle.std.specs.Prelude.{◌≡◌, ◌+◌};
ghost use Rattle.values.specs.Entry.{quality_number};
ghost use Rattle.std.specs.Prelude.{Some};
ghost use Rattle.words.specs.Entry.{quality_from, entry_from, held_from, entry_words_of, held_words_of};

use super::error::{ErrorWords, error_from};
use super::scalar::{int_of_word, word_of_int};
use super::value::{ValueWords, value_from};
use values::entry::{Entry, Quality};

// held: 0 where there is no entry, and otherwise the quality's number and 1.
#[repr(C)]
#[derive(Clone, Copy)]
pub struct EntryWords {
    pub held: u64,
    pub kind: u64,
    pub word: u64,
    pub t: u64,
    pub error: u64,
    pub message: u64,
}

// A function each way, and no `From`: the number is one of many that a `u64` may be.
pub fn quality_from(held: u64) -> Quality
    ensures { result ≡ quality_from held }
{
    match held {
        2 => Quality::Bad,
        3 => Quality::Missing,
        4 => Quality::Stale,
        _ => Quality::Good,
    }
}

pub fn quality_word(q: Quality) -> u64
    ensures { result ≡ quality_number q + 1 }
{
    match q {
        Quality::Good => 1,
        Quality::Bad => 2,
        Quality::Missing => 3,
        Quality::Stale => 4,
    }
}

impl From<EntryWords> for Entry {
    ghost from_gives = { λ w e. e ≡ entry_from w };

    fn from(w: EntryWords) -> Entry {
        Entry {
            value: value_from(w.kind, w.word),
            quality: quality_from(w.held),
            t: int_of_word(w.t),
            error: error_from(w.error, w.message),
        }
    }
}

// A function by name: `From` for an `Option` is std's.
pub fn held_from(w: EntryWords) -> Option<Entry>
    ensures { result ≡ held_from w }
{
    if w.held == 0 {
        return None;
    }
    Some(Entry::from(w))
}

impl From<Entry> for EntryWords {
    ghost from_gives = { λ e words. (held_from words ≡ Some e) × (words ≡ entry_words_of e) };

    fn from(e: Entry) -> EntryWords {
        let value = ValueWords::from(e.value);
        let error = ErrorWords::from(e.error);
        EntryWords {
            held: quality_word(e.quality),
            kind: value.kind,
            word: value.word,
            t: word_of_int(e.t),
            error: error.kind,
            message: error.message,
        }
    }
}

impl From<Option<Entry>> for EntryWords {
    ghost from_gives = { λ h words. (held_from words ≡ h) × (words ≡ held_words_of h) };

    fn from(h: Option<Entry>) -> EntryWords {
        match h {
            None => EntryWords {
                held: 0,
                kind: 0,
                word: 0,
                t: 0,
                error: 0,
                message: 0,
            },
            Some(e) => EntryWords::from(e),
        }
    }
}
