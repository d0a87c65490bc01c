// Rules 2 and 3 on entries as words.
ghost use Rattle.std.specs.Prelude.{◌≡◌};
ghost use Rattle.values.specs.Entry.{merged, same_entry};
ghost use Rattle.values.specs.Deadband.{within_deadband};
ghost use Rattle.std.specs.Prelude.{Some};
ghost use Rattle.words.specs.Entry.{entry_from, held_from};
ghost use Rattle.leaves.specs.Entries.{result_from};

use values::entry::{Entry, TagResult};
use words::entry::{EntryWords, held_from};
use words::error::error_from;
use words::value::value_from;

#[unsafe(no_mangle)]
pub extern "C" fn leaf_same(a: EntryWords, b: EntryWords) -> bool
    ensures { result ≡ same_entry (entry_from a) (entry_from b) }
{
    values::entry::same(Entry::from(a), Entry::from(b))
}

#[unsafe(no_mangle)]
pub extern "C" fn leaf_within_deadband(band: f64, published: EntryWords, new: EntryWords) -> bool
    ensures { result ≡ within_deadband band (entry_from published) (entry_from new) }
{
    values::deadband::within_deadband(band, Entry::from(published), Entry::from(new))
}

// A result is an entry's value, or its error where it has one.
fn result_from(w: EntryWords) -> TagResult
    ensures { result ≡ result_from w }
{
    match error_from(w.error, w.message) {
        None => Ok(value_from(w.kind, w.word)),
        Some(e) => Err(e),
    }
}

#[unsafe(no_mangle)]
pub extern "C" fn leaf_merge(old: EntryWords, res: EntryWords, t: i64) -> EntryWords
    ensures { held_from result ≡ Some (merged (held_from old) (result_from res) t) }
{
    EntryWords::from(values::entry::merge(held_from(old), result_from(res), t))
}
