// The tags in tiers in their order of entry, the tags in grace, and the tags of the request in hand.
ghost use Rattle.std.specs.Prelude.{[], ◌≡◌, length, get_or, take};
ghost use Rattle.lists.specs.Keep.{without};
ghost use Rattle.tags.specs.Lists.{pushed};
ghost use Rattle.board.specs.Layout.{IsBoard};
ghost use Rattle.board.specs.Board.{Holds, board_in, with_order, with_graces, with_asked};

use super::parts::{asked_of, order_of};
use super::starts::{asked_start, graces_start, keys_start, order_start};
use removal::remove;
use tags::{at, clear, count, push, shorten};

// How many tags are in a tier.
pub fn order_count(b: &[u8]) -> usize
    requires { IsBoard b.now }
    ensures { result ≡ length (board_in b.now).table.order }
{
    count(order_of(b))
}

// The one at place i of the order; past its end 0.
pub fn order_at(b: &[u8], i: usize) -> usize
    requires { IsBoard b.now }
    ensures { result ≡ get_or (board_in b.now).table.order i 0 }
{
    at(order_of(b), i)
}

pub fn push_order(b: &mut [u8], k: u16)
    requires { IsBoard b.old }
    ensures { Holds b.new (with_order (board_in b.old) (pushed (board_in b.old).table.room (board_in b.old).table.order k)) }
{
    let start = order_start(b);
    let end = graces_start(b);
    push(&mut b[start..end], k as usize);
}

pub fn remove_order(b: &mut [u8], k: u16)
    requires { IsBoard b.old }
    ensures { Holds b.new (with_order (board_in b.old) (without k (board_in b.old).table.order)) }
{
    let start = order_start(b);
    let end = graces_start(b);
    remove(&mut b[start..end], k as usize);
}

pub fn push_grace(b: &mut [u8], k: u16)
    requires { IsBoard b.old }
    ensures { Holds b.new (with_graces (board_in b.old) (pushed (board_in b.old).table.room (board_in b.old).table.graces k)) }
{
    let start = graces_start(b);
    let end = asked_start(b);
    push(&mut b[start..end], k as usize);
}

pub fn remove_grace(b: &mut [u8], k: u16)
    requires { IsBoard b.old }
    ensures { Holds b.new (with_graces (board_in b.old) (without k (board_in b.old).table.graces)) }
{
    let start = graces_start(b);
    let end = asked_start(b);
    remove(&mut b[start..end], k as usize);
}

// How many tags are asked for.
pub fn asked_count(b: &[u8]) -> usize
    requires { IsBoard b.now }
    ensures { result ≡ length (board_in b.now).asked }
{
    count(asked_of(b))
}

// The one at place i of those asked for; past its end 0.
pub fn asked_at(b: &[u8], i: usize) -> usize
    requires { IsBoard b.now }
    ensures { result ≡ get_or (board_in b.now).asked i 0 }
{
    at(asked_of(b), i)
}

pub fn push_asked(b: &mut [u8], k: u16)
    requires { IsBoard b.old }
    ensures { Holds b.new (with_asked (board_in b.old) (pushed (board_in b.old).table.room (board_in b.old).asked k)) }
{
    let start = asked_start(b);
    let end = keys_start(b);
    push(&mut b[start..end], k as usize);
}

pub fn clear_asked(b: &mut [u8])
    requires { IsBoard b.old }
    ensures { Holds b.new (with_asked (board_in b.old) ([])) }
{
    let start = asked_start(b);
    let end = keys_start(b);
    clear(&mut b[start..end]);
}

// Only the first n stay asked for.
pub fn shorten_asked(b: &mut [u8], n: usize)
    requires { IsBoard b.old }
    ensures { Holds b.new (with_asked (board_in b.old) (take n (board_in b.old).asked)) }
{
    let start = asked_start(b);
    let end = keys_start(b);
    shorten(&mut b[start..end], n);
}
