// The tier-1 tags that are due, and what is recorded of them.
ghost use Rattle.std.specs.Prelude.{◌≡◌, get_or};
ghost use Rattle.tags.specs.Lists.{list_in, room, fitted};
ghost use Rattle.table.specs.Tag.{fresh_tag};
ghost use Rattle.table.specs.Table.{table_in};
ghost use Rattle.board.specs.Layout.{IsBoard};
ghost use Rattle.board.specs.Board.{Holds, board_in, with_groups};
ghost use Rattle.rounds.specs.Due.{is_due, due_tags, marked, recorded_due, none_seen};

use super::collect::collect;
use super::tick::{is_due_since, rate_of};
use board::recording::note;
use fields::{put_last, settings_of, tier_of, timing_of};
use tags::{at, count};

// A tag that was never read is always due.
pub fn is_tag_due(t: &[u8], k: usize, clock: f64, half: f64, cycle: f64) -> bool
    ensures { result ≡ is_due (get_or (table_in t.now) k fresh_tag) clock half cycle }
{
    tier_of(t, k) == 1
        && is_due_since(
            timing_of(t, k).last,
            clock,
            half,
            rate_of(settings_of(t, k), cycle),
        )
}

// The due tags, in table order, into `list`.
pub fn list_due(t: &[u8], order: &[u8], list: &mut [u8], clock: f64, half: f64, cycle: f64)
    ensures { list_in list.new ≡ fitted (room list.old) (due_tags (table_in t.now) (list_in order.now) clock half cycle) }
{
    collect(order, list, |k| is_tag_due(t, k, clock, half, cycle));
}

// The last reading time of each tag of `list`.
pub fn mark_due(t: &mut [u8], list: &[u8], clock: f64)
    ensures { table_in t.new ≡ marked (table_in t.old) clock (list_in list.now) }
{
    for i in 0..count(list) {
        put_last(t, at(list, i), clock);
    }
}

// The groups of the tags of `list`. `seen` has a place for every group that a byte can number, and no heap to grow in.
pub fn record_due(b: &mut [u8], list: &[u8], clock: f64)
    requires { IsBoard b.old }
    ensures { Holds b.new (with_groups (board_in b.old) (recorded_due (board_in b.old).table.tags clock none_seen (board_in b.old).groups (list_in list.now))) }
{
    let mut seen = [false; 256];
    for i in 0..count(list) {
        if let Some(g) = board::tag::settings_of(b, at(list, i)).group {
            note(b, g.number, g.rate, clock, !seen[g.number as usize]);
            seen[g.number as usize] = true;
        }
    }
}
