// Rule 6, whole: the Rust's `cycle_tags`.
ghost use Rattle.std.specs.Prelude.{◌≡◌, map, ◌+◌, ◌*◌, ◌≤◌, length};
ghost use Rattle.tags.specs.Lists.{list_in, room};
ghost use Rattle.names.specs.Directory.{max_names};
ghost use Rattle.board.specs.Layout.{IsBoard};
ghost use Rattle.board.specs.Board.{Holds, board_in, with_records, with_groups, asking};
ghost use Rattle.rounds.specs.Due.{due_tags, marked, recorded_due, none_seen};
ghost use Rattle.rounds.specs.Added.{with_added_tags, settled};
ghost use Rattle.table.specs.Table.{by_rank};
ghost use Rattle.rounds.specs.Missing.{not_held_back};
ghost use Rattle.rounds.specs.Round.{cycle_after, round_of};
ghost use Rattle.rounds.specs.Memory.{Worked};

use super::added::{any_added, list_added};
use super::due::record_due;
use super::graces::expire;
use super::missing::drop_missing;
use super::steps::{list_due_in, mark_due_in, settle_in, take_slice_in, tick_in};
use super::tick::is_boundary;
use board::parts::table_of;
use heads::cycle::Cycle;
use heads::options::Options;

#[derive(Clone, Copy)]
pub struct CycleTags {
    pub tick: f64,
    pub boundary: bool,
    pub cycle: Cycle,
}

fn cycle_after(c: Cycle, boundary: bool, clock: f64, index: u64) -> Cycle
    ensures { result ≡ cycle_after c boundary clock index }
{
    Cycle {
        last: if boundary { Some(clock) } else { c.last },
        index,
    }
}

// The due tags into `wanted`, with what is recorded of them.
fn read_due(b: &mut [u8], wanted: &mut [u8], clock: f64, half: f64, cycle: f64)
    requires board { IsBoard b.old }
    requires max_names_bound { max_names ≤ room wanted.old }
    ensures wanted_after { list_in wanted.new ≡ due_tags (board_in b.old).table.tags (board_in b.old).table.order clock half cycle }
    ensures holds { Holds b.new
        (with_groups (with_records (board_in b.old) (marked (board_in b.old).table.tags clock (list_in wanted.new)))
        (recorded_due (marked (board_in b.old).table.tags clock (list_in wanted.new)) clock none_seen (board_in b.old).groups (list_in wanted.new))) }
{
    list_due_in(b, wanted, clock, half, cycle);
    mark_due_in(b, wanted, clock);
    record_due(b, wanted, clock);
}

// The new tags go after what `wanted` has, and of all these the ones that are not held back are asked for. Then no tag is
// new any more.
fn list_round(b: &mut [u8], wanted: &mut [u8], clock: f64)
    requires board { IsBoard b.old }
    requires max_names_len_bound { length (list_in wanted.old) + max_names ≤ room wanted.old }
    ensures { Holds b.new
        (asking (with_records (board_in b.old) (map settled (board_in b.old).table.tags))
        (not_held_back (board_in b.old).table.tags
        (with_added_tags (board_in b.old).table.tags (list_in wanted.old) (by_rank (board_in b.old).table.tags)) clock)) }
{
    if any_added(table_of(b)) {
        list_added(table_of(b), wanted);
        drop_missing(b, wanted, clock);
        settle_in(b);
    } else {
        drop_missing(b, wanted, clock);
    }
}

// The round, with two lists to work in. The due tags and the slice are tags of the order in different tiers, and the new ones
// are tags of the table: so `wanted` has room for all if it has it for twice the names.
fn cycle_in(
    b: &mut [u8],
    sorted: &mut [u8],
    wanted: &mut [u8],
    o: Options,
    c: Cycle,
    clock: f64,
) -> CycleTags
    requires board { IsBoard b.old }
    requires max_names_bound { max_names ≤ room sorted.old }
    requires max_names_bound_2 { 2 * max_names ≤ room wanted.old }
    ensures { Worked (board_in b.old) (round_of (board_in b.old) o c clock) result b.new }
{
    let tick = tick_in(b, o.cycle);
    let half = tick / 2.0;
    let boundary = is_boundary(c, clock, half, o.cycle);
    expire(b, wanted, clock, boundary);
    read_due(b, wanted, clock, half, o.cycle);
    let index = take_slice_in(b, sorted, wanted, o, c.index, boundary);
    list_round(b, wanted, clock);
    CycleTags {
        tick,
        boundary,
        cycle: cycle_after(c, boundary, clock, index),
    }
}

// A round at the clock time `clock`: the tags to read are those asked for. The lists it works in have room for twice as
// many tags as a directory can have names; they are arrays, since an engine has no heap.
pub fn cycle_tags(b: &mut [u8], o: Options, c: Cycle, clock: f64) -> CycleTags
    requires { IsBoard b.old }
    ensures { Worked (board_in b.old) (round_of (board_in b.old) o c clock) result b.new }
{
    let mut sorted = [0u8; 2048];
    let mut wanted = [0u8; 2048];
    cycle_in(b, &mut sorted, &mut wanted, o, c, clock)
}
