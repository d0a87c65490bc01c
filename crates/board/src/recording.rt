// What is recorded of groups as their tags are read.
ghost use Rattle.std.specs.Prelude.{◌≡◌, get_or, set};
ghost use Rattle.tags.specs.Lists.{pushed, member};
ghost use Rattle.groups.specs.Groups.{fresh_group, group_read, noted};
ghost use Rattle.board.specs.Layout.{IsBoard};
ghost use Rattle.board.specs.Board.{Holds, board_in, with_groups, with_group_rows, with_recorded};

use super::parts::recorded_of;
use super::starts::{configured_start, groups_start, recorded_start, table_start};
use groups::read_at;
use tags::{contains, push};

// A tag of the group g was listed at the clock time `at`, with this rate.
fn read_group(b: &mut [u8], g: u8, rate: u32, at: f64, first: bool)
    requires { IsBoard b.old }
    ensures { Holds b.new (with_group_rows (board_in b.old) (set (board_in b.old).groups.groups g (group_read (get_or (board_in b.old).groups.groups g fresh_group) rate at first))) }
{
    let start = groups_start(b);
    let end = table_start(b);
    read_at(&mut b[start..end], g as usize, rate, at, first);
}

fn is_recorded(b: &[u8], g: u8) -> bool
    requires { IsBoard b.now }
    ensures { result ≡ member g (board_in b.now).groups.recorded }
{
    contains(recorded_of(b), g as usize)
}

fn push_recorded(b: &mut [u8], g: u8)
    requires { IsBoard b.old }
    ensures { Holds b.new (with_recorded (board_in b.old) (pushed (board_in b.old).groups.recorded_room (board_in b.old).groups.recorded g)) }
{
    let start = recorded_start(b);
    let end = configured_start(b);
    push(&mut b[start..end], g as usize);
}

// A tag of the group g was listed. The times of a group move on once a round: `first` says whether it is the first of its
// group.
pub fn note(b: &mut [u8], g: u8, rate: u32, at: f64, first: bool)
    requires { IsBoard b.old }
    ensures { Holds b.new (with_groups (board_in b.old) (noted (board_in b.old).groups g rate at first)) }
{
    read_group(b, g, rate, at, first);
    if !is_recorded(b, g) {
        push_recorded(b, g);
    }
}
