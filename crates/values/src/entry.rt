// Rule 2: the quality of a reading, and what a reading makes of the cached entry.
ghost use Rattle.std.specs.Prelude.{◌≡◌};
ghost use Rattle.values.specs.Entry.{quality_number, is_good, quality_of, kept, failed_value, merged, same_entry};

use super::error::{ErrorKind, TagError, same_error};
use super::value::{Value, same_value};

#[derive(Clone, Copy)]
pub enum Quality {
    Good,
    Bad,
    Missing,
    Stale,
}

// A cache entry; `t` is the wall time of the reading in milliseconds.
#[derive(Clone, Copy)]
pub struct Entry {
    pub value: Value,
    pub quality: Quality,
    pub t: i64,
    pub error: Option<TagError>,
}

// What the host read of one tag.
pub type TagResult = Result<Value, TagError>;

// 0 for good, 1 for bad, 2 for missing, 3 for stale.
pub fn quality_number(q: Quality) -> u8
    ensures { result ≡ quality_number q }
{
    match q {
        Quality::Good => 0,
        Quality::Bad => 1,
        Quality::Missing => 2,
        Quality::Stale => 3,
    }
}

pub fn is_good(q: Quality) -> bool
    ensures { result ≡ is_good q }
{
    matches!(q, Quality::Good)
}

// The quality that an error means; without one it is good.
pub fn quality_of(e: Option<TagError>) -> Quality
    ensures { result ≡ quality_of e }
{
    match e {
        None => Quality::Good,
        Some(e) => match e.kind {
            ErrorKind::NotFound | ErrorKind::Access => Quality::Missing,
            ErrorKind::Other(_) => Quality::Bad,
        },
    }
}

// The value of an entry, null where there is none.
pub fn kept_value(old: Option<Entry>) -> Value
    ensures { result ≡ kept old }
{
    match old {
        None => Value::Null,
        Some(e) => e.value,
    }
}

// The value of an entry whose reading failed.
fn failed_value(q: Quality, old: Option<Entry>) -> Value
    ensures { result ≡ failed_value q old }
{
    match q {
        Quality::Good | Quality::Bad | Quality::Stale => kept_value(old),
        Quality::Missing => Value::Null,
    }
}

// The entry that a reading at `t` makes of the cached one.
pub fn merge(old: Option<Entry>, res: TagResult, t: i64) -> Entry
    ensures { result ≡ merged old res t }
{
    match res {
        Ok(value) => Entry {
            value,
            quality: Quality::Good,
            t,
            error: None,
        },
        Err(e) => {
            let quality = quality_of(Some(e));
            Entry {
                value: failed_value(quality, old),
                quality,
                t,
                error: Some(e),
            }
        }
    }
}

// Whether value, quality and error are the same; the time does not count, so this is no `==`.
pub fn same(a: Entry, b: Entry) -> bool
    ensures { result ≡ same_entry a b }
{
    quality_number(a.quality) == quality_number(b.quality)
        && same_error(a.error, b.error)
        && same_value(a.value, b.value)
}
