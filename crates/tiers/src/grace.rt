// Tier calls, and the graces of tags that leave tier 1.
ghost use Rattle.std.specs.Prelude.{◌≡◌, false};
ghost use Rattle.std.specs.Float.Ieee.{le};
ghost use Rattle.table.specs.Tag.{f0};
ghost use Rattle.tiers.specs.Tiers.{enter_grace, change_grace, set_tier};
ghost use Rattle.board.specs.Board.{with_table};
ghost use Rattle.board.specs.Layout.{IsBoard};
ghost use Rattle.board.specs.Board.{Holds, board_in};

use super::set::{put, set};
use board::tag::{grace_of, put_after, tier_of};
use board::tag_lists::push_grace;
use table::tag::Grace;

fn enter_grace(b: &mut [u8], k: u16, deadline: f64, after: u8)
    requires { IsBoard b.old }
    ensures { Holds b.new (with_table (board_in b.old) (enter_grace (board_in b.old).table k deadline after)) }
{
    put(b, k, 2, Some(Grace { deadline, after }));
    push_grace(b, k);
}

fn change_grace(b: &mut [u8], k: u16, after: u8)
    requires { IsBoard b.old }
    ensures { Holds b.new (with_table (board_in b.old) (change_grace (board_in b.old).table k after)) }
{
    put_after(b, k as usize, after);
}

// A tier call with a grace. It is a function of its own, and not inlined, so that a call without one goes by the test of its
// grace alone, which a processor foresees, as it does not the tiers of calls.
#[inline(never)]
fn set_graced(b: &mut [u8], k: u16, tier: u8, grace: f64, clock: f64)
    requires board { IsBoard b.old }
    requires graced { le grace f0 ≡ false }
    ensures { Holds b.new (with_table (board_in b.old) (set_tier (board_in b.old).table k tier grace clock)) }
{
    if tier == 1 || tier == 2 {
        return set(b, k, tier);
    }
    if tier_of(b, k as usize) == 1 {
        return enter_grace(b, k, clock + grace, tier);
    }
    match grace_of(b, k as usize) {
        None => set(b, k, tier),
        Some(_) => change_grace(b, k, tier),
    }
}

// Rule 5: a tier call, 0 being none. A tag that leaves tier 1 stays in tier 2 for the grace first, so that a page
// opened again finds its values fresh.
pub fn set_tier(b: &mut [u8], k: u16, tier: u8, grace: f64, clock: f64)
    requires { IsBoard b.old }
    ensures { Holds b.new (with_table (board_in b.old) (set_tier (board_in b.old).table k tier grace clock)) }
{
    if grace <= 0.0 {
        set(b, k, tier);
    } else {
        set_graced(b, k, tier, grace, clock);
    }
}
