// What is recorded of each group as its tags are read: rules 6 and 10. Eight cells for each group, the last three of
// them spare, and beside them the groups in the order of their first reading.
#![tactic(auto)]

pub mod group;

ghost use Rattle.std.specs.Prelude.{◌≡◌, true, get_or, set};
ghost use Rattle.groups.specs.Groups.{fresh_group, groups_in, group_read, with_rate};

use group::Group;
use memory::cells::{cell, put_cell};
use words::time::{TimeWords, time_from};

// The group g; past the end a fresh one.
pub fn group_of(s: &[u8], g: usize) -> Group
    ensures { result ≡ get_or (groups_in s.now) g fresh_group }
{
    if s.len() / 64 <= g {
        return Group::fresh();
    }
    Group {
        rate: (cell(s, 8 * g + 2) % 0x1_0000_0000) as u32,
        last: time_from(cell(s, 8 * g), cell(s, 8 * g + 3)),
        before: time_from(cell(s, 8 * g + 1), cell(s, 8 * g + 4)),
    }
}

// The group g replaced; past the end nothing happens.
pub fn put_group(s: &mut [u8], g: usize, x: Group)
    ensures { groups_in s.new ≡ set (groups_in s.old) g x }
{
    if s.len() / 64 <= g {
        return;
    }
    let last = TimeWords::from(x.last);
    let before = TimeWords::from(x.before);
    put_cell(s, 8 * g, last.known);
    put_cell(s, 8 * g + 1, before.known);
    put_cell(s, 8 * g + 2, x.rate as u64);
    put_cell(s, 8 * g + 3, last.word);
    put_cell(s, 8 * g + 4, before.word);
}

// The first tag of the group g in a round: its times move on.
fn put_first(s: &mut [u8], g: usize, rate: u32, at: f64)
    ensures { groups_in s.new ≡ set (groups_in s.old) g (group_read (get_or (groups_in s.old) g fresh_group) rate at true) }
{
    let x = group_of(s, g);
    put_group(s, g, group::read(x, rate, at, true));
}

// Another tag of it: nothing but its rate is written, as most tags of a round come here.
fn put_rate(s: &mut [u8], g: usize, rate: u32)
    ensures { groups_in s.new ≡ set (groups_in s.old) g (with_rate (get_or (groups_in s.old) g fresh_group) rate) }
{
    if g < s.len() / 64 {
        put_cell(s, 8 * g + 2, rate as u64);
    }
}

// A tag of the group g was listed at the clock time `at`, with this rate. The times of a group move on once a round:
// `first` says whether it is the first of its group.
pub fn read_at(s: &mut [u8], g: usize, rate: u32, at: f64, first: bool)
    ensures { groups_in s.new ≡ set (groups_in s.old) g (group_read (get_or (groups_in s.old) g fresh_group) rate at first) }
{
    if first {
        put_first(s, g, rate, at);
    } else {
        put_rate(s, g, rate);
    }
}
