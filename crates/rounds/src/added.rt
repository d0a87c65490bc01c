// Tags new in tier 2.
ghost use Rattle.std.specs.Prelude.{◌≡◌, map};
ghost use Rattle.tags.specs.Lists.{list_in, room, fitted};
ghost use Rattle.table.specs.Table.{table_in, by_rank};
ghost use Rattle.rounds.specs.Added.{any_added, with_added_tags, settled};

use fields::{added_of, put_added};
use tags::{contains, push};

// The tags new in tier 2 that `list` does not have, by tag number, after what it has. A list can hold
// tags below 65536. No `collect`: the test reads the list that grows, which a closure could not.
pub fn list_added(t: &[u8], list: &mut [u8])
    ensures { list_in list.new ≡ fitted (room list.old) (with_added_tags (table_in t.now) (list_in list.old) (by_rank (table_in t.now))) }
{
    let rows = t.len() / 256;
    let n = if rows < 65536 { rows } else { 65536 };
    for k in 0..n {
        if added_of(t, k) && !contains(list, k) {
            push(list, k);
        }
    }
}

// Whether a tag is new in tier 2. Mostly none is.
pub fn any_added(t: &[u8]) -> bool
    ensures { result ≡ any_added (table_in t.now) }
{
    for k in 0..t.len() / 256 {
        if added_of(t, k) {
            return true;
        }
    }
    false
}

// No tag is new any more.
pub fn settle(t: &mut [u8])
    ensures { table_in t.new ≡ map settled (table_in t.old) }
{
    for k in 0..t.len() / 256 {
        if added_of(t, k) {
            put_added(t, k, false);
        }
    }
}
