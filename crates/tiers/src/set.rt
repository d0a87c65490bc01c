// A tag put in a tier at once.
ghost use Rattle.std.specs.Prelude.{◌≡◌, is_some};
ghost use Rattle.tiers.specs.Tiers.{added_from, wants_from, kept_for, order_set, grace_ended, put_table, set_table};
ghost use Rattle.board.specs.Board.{with_table, tag_at};
ghost use Rattle.board.specs.Layout.{IsBoard};
ghost use Rattle.board.specs.Board.{Holds, board_in, with_tag, with_order, with_graces};

use board::tag::{
    added_of, forget, forget_last, grace_of, is_bit, put_standing, tier_of, wants_of,
};
use board::tag_lists::{push_order, remove_grace, remove_order};
use table::tag::Grace;

// The tests below do not branch, as the tiers of calls follow no order that a processor could foresee.
fn added_set(old: u8, added: bool, tier: u8) -> bool
    ensures { result ≡ added_from old added tier }
{
    (tier == 2) & ((old == 0) | ((old == 3) | added))
}

fn wants_set(old: u8, wants: bool, bit: bool, tier: u8) -> bool
    ensures { result ≡ wants_from old wants bit tier }
{
    (tier != 0) & (wants | ((old == 0) & !bit))
}

// Leaving forgets readings and entries, and any other setting but tier 1 the last reading time.
fn forget_for(b: &mut [u8], k: usize, tier: u8)
    requires { IsBoard b.old }
    ensures { Holds b.new (with_tag (board_in b.old) k (kept_for (tag_at (board_in b.old).table k) tier)) }
{
    match tier {
        0 => forget(b, k),
        1 => {}
        _ => forget_last(b, k),
    }
}

fn order_set(b: &mut [u8], k: u16, old: u8, new: u8)
    requires { IsBoard b.old }
    ensures { Holds b.new (with_order (board_in b.old) (order_set (board_in b.old).table.room (board_in b.old).table.order k old new)) }
{
    match (old, new) {
        (0, 0) => {}
        (0, _) => push_order(b, k),
        (_, 0) => remove_order(b, k),
        _ => {}
    }
}

fn end_grace(b: &mut [u8], k: u16, old: Option<Grace>)
    requires { IsBoard b.old }
    ensures { Holds b.new (with_graces (board_in b.old) (grace_ended (board_in b.old).table.graces k (is_some old))) }
{
    if let Some(_) = old {
        remove_grace(b, k);
    }
}

// The tag k put in a tier, with a grace or none.
pub fn put(b: &mut [u8], k: u16, tier: u8, g: Option<Grace>)
    requires { IsBoard b.old }
    ensures { Holds b.new (with_table (board_in b.old) (put_table (board_in b.old).table k tier g)) }
{
    let at = k as usize;
    let old = tier_of(b, at);
    let grace = grace_of(b, at);
    let added = added_set(old, added_of(b, at), tier);
    let wants = wants_set(old, wants_of(b, at), is_bit(b, at), tier);
    put_standing(b, at, tier, g, added, wants);
    forget_for(b, at, tier);
    order_set(b, k, old, tier);
    end_grace(b, k, grace);
}

// The tag k put in a tier at once; 0 is none.
pub fn set(b: &mut [u8], k: u16, tier: u8)
    requires { IsBoard b.old }
    ensures { Holds b.new (with_table (board_in b.old) (set_table (board_in b.old).table k tier)) }
{
    put(b, k, tier, None);
}
