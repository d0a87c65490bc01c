// A values event as a lent run of records, tag beside entry: what the list of a step holds in cells, for callers in
// Rattle. The functions over a lent run are thin, and pass it to those of `runs`. The one at the end takes and gives the
// run by value.
#![tactic(auto)]

ghost use Rattle.std.specs.Prelude.{◌≡◌, ◌<◌, min, get_or};
ghost use Rattle.memory.specs.Cells.{cells_in};
ghost use Rattle.names.specs.Directory.{max_names};
ghost use Rattle.runs.specs.Run.{over, filled};
ghost use Rattle.changes.specs.Changes.{change_in, told, answer};

use arrayvec::ArrayVec;
use memory::cells::cell;
use names::directory::MAX_NAMES;
use refusals::Refusal;
use runs::{at, fill};
use values::entry::{Entry, Quality};
use values::value::Value;
use words::entry::EntryWords;

#[derive(Clone, Copy)]
pub struct Change {
    pub tag: u16,
    pub entry: Entry,
}

// A change that is not there.
impl Default for Change {
    ghost use Rattle.std.specs.Prelude.{◌≡◌};
    ghost use Rattle.changes.specs.Changes.{no_change};

    ghost is_default = { λ change. change ≡ no_change };

    fn default() -> Change {
        let entry = Entry {
            value: Value::Null,
            quality: Quality::Good,
            t: 0,
            error: None,
        };
        Change { tag: 0, entry }
    }
}

// The change in cells 9i to 9i + 8 of a list.
fn change_in(list: &[u8], i: usize) -> Change
    requires { i < max_names }
    ensures { result ≡ change_in (cells_in list.now) i }
{
    let p = 9 * i;
    let entry = Entry::from(EntryWords {
        held: cell(list, p + 1),
        kind: cell(list, p + 2),
        word: cell(list, p + 3),
        t: cell(list, p + 4),
        error: cell(list, p + 5),
        message: cell(list, p + 6),
    });
    Change {
        tag: (cell(list, p) % 65536) as u16,
        entry,
    }
}

// The first n changes of a list, and no more than a directory has names.
fn told(list: &[u8], n: usize) -> ArrayVec<Change, MAX_NAMES>
    ensures { result.items ≡ told list.now n }
{
    let mut changes = ArrayVec::new();
    for i in 0..n.min(MAX_NAMES) {
        changes.push(change_in(list, i));
    }
    changes
}

// The changes that a step told, n in all, from its list, over the first places of `out`; the places past them keep their
// contents. A run with fewer places than a directory has names at most is refused, and left as it was.
pub fn read_changes(out: &mut [Change], list: &[u8], n: usize) -> Result<(), Refusal>
    ensures { (result ≡ answer out.old) × (out.new ≡ filled max_names (min n max_names) (told list.now n) out.old) }
{
    fill(out, &told(list, n)).or(Err(Refusal::ListRoom))
}

// One of a run; past its end `none`.
pub fn change_at(changes: &[Change], i: usize, none: Change) -> Change
    ensures { result ≡ get_or changes.now i none }
{
    at(changes, i, none)
}

// A run by value, lent to `read_changes` and given back. It has room for all changes, so that nothing refuses it.
pub fn with_changes(run: [Change; MAX_NAMES], list: &[u8], n: usize) -> [Change; MAX_NAMES]
    ensures { result ≡ over (min n max_names) (told list.now n) run }
{
    let mut out = run;
    let _ = read_changes(&mut out, list, n);
    out
}
