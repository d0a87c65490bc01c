// Steps of a round on the board: parts are read, or the table is lent as the last thing that is done.
ghost use Rattle.std.specs.Prelude.{◌≡◌, ◌++◌, map, ◌+◌, ◌≤◌, length};
ghost use Rattle.ieee.specs.Round.{slices_of};
ghost use Rattle.lists.specs.Sort.{by_keys};
ghost use Rattle.names.specs.Directory.{max_names};
ghost use Rattle.tags.specs.Lists.{list_in, room};
ghost use Rattle.board.specs.Layout.{IsBoard};
ghost use Rattle.board.specs.Board.{Holds, board_in, with_records};
ghost use Rattle.slices.specs.Slice.{tier2_tags, slice_taken, next_index};
ghost use Rattle.rounds.specs.Tick.{tick_of};
ghost use Rattle.rounds.specs.Due.{due_tags, marked};
ghost use Rattle.rounds.specs.Added.{settled};

use super::added::settle;
use super::due::{list_due, mark_due};
use super::tick::tick_of;
use board::parts::{keys_of, order_of, table_of};
use board::starts::{order_start, table_start};
use heads::options::Options;
use slices::slice::take_slice;

pub fn tick_in(b: &[u8], cycle: f64) -> f64
    requires { IsBoard b.now }
    ensures { result ≡ tick_of (board_in b.now).table.tags (board_in b.now).table.order cycle }
{
    tick_of(table_of(b), order_of(b), cycle)
}

// The due tags, in table order, into `list`.
pub fn list_due_in(b: &[u8], list: &mut [u8], clock: f64, half: f64, cycle: f64)
    requires board { IsBoard b.now }
    requires max_names_bound { max_names ≤ room list.old }
    ensures { list_in list.new ≡ due_tags (board_in b.now).table.tags (board_in b.now).table.order clock half cycle }
{
    list_due(table_of(b), order_of(b), list, clock, half, cycle);
}

// The last reading time of each tag of `list`.
pub fn mark_due_in(b: &mut [u8], list: &[u8], clock: f64)
    requires { IsBoard b.old }
    ensures { Holds b.new (with_records (board_in b.old) (marked (board_in b.old).table.tags clock (list_in list.now))) }
{
    let (start, end) = (table_start(b), order_start(b));
    mark_due(&mut b[start..end], list, clock);
}

// At a boundary the slice goes after what `list` has, and the index moves on. `sorted` is a list to work in.
pub fn take_slice_in(
    b: &[u8],
    sorted: &mut [u8],
    list: &mut [u8],
    o: Options,
    index: u64,
    boundary: bool,
) -> u64
    requires board { IsBoard b.now }
    requires max_names_bound { max_names ≤ room sorted.old }
    requires max_names_len_bound { length (list_in list.old) + max_names ≤ room list.old }
    ensures value { result ≡ next_index boundary (slices_of o.period o.cycle) (tier2_tags (by_keys (board_in b.now).keys) (board_in b.now).table.tags (board_in b.now).table.order) index }
    ensures list_after { list_in list.new ≡ list_in list.old ++ slice_taken boundary (slices_of o.period o.cycle) (tier2_tags (by_keys (board_in b.now).keys) (board_in b.now).table.tags (board_in b.now).table.order) index }
{
    take_slice(
        table_of(b),
        order_of(b),
        keys_of(b),
        sorted,
        list,
        o.period,
        o.cycle,
        index,
        boundary,
    )
}

// No tag is new any more.
pub fn settle_in(b: &mut [u8])
    requires { IsBoard b.old }
    ensures { Holds b.new (with_records (board_in b.old) (map settled (board_in b.old).table.tags)) }
{
    let (start, end) = (table_start(b), order_start(b));
    settle(&mut b[start..end]);
}
