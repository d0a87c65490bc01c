// Graces that run out at a boundary.
ghost use Rattle.std.specs.Prelude.{◌≡◌, ◌≤◌};
ghost use Rattle.names.specs.Directory.{max_names};
ghost use Rattle.tags.specs.Lists.{list_in, room, fitted};
ghost use Rattle.table.specs.Table.{table_in};
ghost use Rattle.board.specs.Layout.{IsBoard};
ghost use Rattle.board.specs.Board.{Holds, board_in, with_table};
ghost use Rattle.rounds.specs.Graces.{deadline_of, after_of, expired, run_out, expired_at};

use super::collect::collect;
use board::parts::{graces_of, table_of};
use fields::grace_of;
use table::tag::Grace;
use tags::{at, count};
use tiers::set::set;

// A tag in no grace has the deadline 0, which has passed, and goes nowhere; no such tag is among the graces.
fn deadline_of(g: Option<Grace>) -> f64
    ensures { result ≡ deadline_of g }
{
    match g {
        None => 0.0,
        Some(g) => g.deadline,
    }
}

fn after_of(g: Option<Grace>) -> u8
    ensures { result ≡ after_of g }
{
    match g {
        None => 0,
        Some(g) => g.after,
    }
}

// The tags whose grace has run out, in grace order, into `list`.
pub fn list_expired(t: &[u8], graces: &[u8], list: &mut [u8], clock: f64)
    ensures { list_in list.new ≡ fitted (room list.old) (expired (table_in t.now) (list_in graces.now) clock) }
{
    collect(graces, list, |k| deadline_of(grace_of(t, k)) <= clock);
}

// Each tag of `list` goes where it was to go after its grace.
pub fn run_out(b: &mut [u8], list: &[u8])
    requires { IsBoard b.old }
    ensures { Holds b.new (with_table (board_in b.old) (run_out (board_in b.old).table (list_in list.now))) }
{
    for i in 0..count(list) {
        let k = at(list, i);
        let after = after_of(board::tag::grace_of(b, k));
        set(b, (k % 65536) as u16, after);
    }
}

// At a boundary the graces that are over run out; `list` is overwritten.
pub fn expire(b: &mut [u8], list: &mut [u8], clock: f64, boundary: bool)
    requires board { IsBoard b.old }
    requires max_names_bound { max_names ≤ room list.old }
    ensures { Holds b.new (with_table (board_in b.old) (run_out (board_in b.old).table (expired_at boundary (board_in b.old).table.tags (board_in b.old).table.graces clock))) }
{
    if boundary {
        list_expired(table_of(b), graces_of(b), list, clock);
        run_out(b, list);
    }
}
