// Rules 5 and 6 on a board in lent memory.
ghost use Rattle.std.specs.Prelude.{◌≡◌, take};
ghost use Rattle.board.specs.Layout.{order, graces, asked};
ghost use Rattle.settings.specs.Configured.{given_groups};
ghost use Rattle.board.specs.Board.{board_in, with_table, with_configured};
ghost use Rattle.fresh.specs.Fresh.{configured_room, fresh_board};
ghost use Rattle.tiers.specs.Tiers.{set_tier};
ghost use Rattle.leaves.specs.Polls.{size_for, size_check, fresh_check, Called, tier_look, part_left, cycle_of, tags_of, Rounded};

use board::parts::{asked_of, graces_of, order_of};
use board::starts::{is_board_size, size_for, tags_in};
use board::tag::tier_of;
use board::tag_lists::asked_count;
use heads::cycle::Cycle;
use heads::options::Options;
use lent::put_bytes;
use names::directory::{Directory, MAX_NAMES};
use rounds::round::CycleTags;

// As C passes it. C has no Option: the time of the last boundary counts where `begun` is true.
#[repr(C)]
#[derive(Clone, Copy)]
pub struct LeafCycle {
    pub last: f64,
    pub index: u64,
    pub begun: bool,
}

impl From<LeafCycle> for Cycle {
    ghost from_gives = { λ c cycle. cycle ≡ cycle_of c };

    fn from(c: LeafCycle) -> Cycle {
        let last = if c.begun { Some(c.last) } else { None };
        Cycle {
            last,
            index: c.index,
        }
    }
}

// As C gets it, with the cycle for the next round: `last` beside `begun`, as in `LeafCycle`.
#[repr(C)]
#[derive(Clone, Copy, Default)]
pub struct LeafRound {
    pub code: u64,
    pub tick: f64,
    pub last: f64,
    pub index: u64,
    pub listed: u64,
    pub begun: bool,
    pub boundary: bool,
}

// The answer to memory that no board has the length of. The checks answer numbers, and no Result, since
// the C functions hand them on.
const NOT_A_BOARD: u32 = 100;

fn size_check(mem: &[u8]) -> u32
    ensures { result ≡ size_check mem.now }
{
    if is_board_size(mem.len()) {
        0
    } else {
        NOT_A_BOARD
    }
}

// How many bytes a board for so many tags has; 0 for a count that no directory has.
#[unsafe(no_mangle)]
pub extern "C" fn leaf_size(count: usize) -> usize
    ensures { result ≡ size_for count }
{
    match count {
        1..=MAX_NAMES => size_for(count),
        _ => 0,
    }
}

fn fresh_check<'a>(mem: &'a [u8], ends: &'a [u32]) -> u32
    ensures { result ≡ fresh_check mem.now ends.now }
{
    let code = size_check(mem);
    if code != 0 {
        return code;
    }
    if tags_in(mem) != ends.len() {
        return NOT_A_BOARD;
    }
    0
}

// A fresh board.
#[unsafe(no_mangle)]
pub extern "C" fn leaf_create<'a>(
    mem: &mut [u8],
    names: &'a [u8],
    ends: &'a [u32],
    settings: &[u8],
    groups: &[u8],
) -> u32
    ensures { Called mem.old mem.new result (fresh_check mem.old ends.now) (with_configured (fresh_board names.now ends.now settings.now groups.now) (take configured_room (given_groups groups.now))) }
{
    let code = fresh_check(mem, ends);
    if code != 0 {
        return code;
    }
    fresh::create(mem, Directory { names, ends }, settings, groups);
    0
}

#[unsafe(no_mangle)]
pub extern "C" fn leaf_set_tier(mem: &mut [u8], k: u16, tier: u8, grace: f64, clock: f64) -> u32
    ensures { Called mem.old mem.new result (size_check mem.old) (with_table (board_in mem.old) (set_tier (board_in mem.old).table k tier grace clock)) }
{
    let code = size_check(mem);
    if code != 0 {
        return code;
    }
    tiers::grace::set_tier(mem, k, tier, grace, clock);
    0
}

fn rounded(r: CycleTags, listed: usize) -> LeafRound
    ensures { (result.code ≡ 0) × ((result.listed ≡ listed) × (tags_of result ≡ r)) }
{
    LeafRound {
        code: 0,
        tick: r.tick,
        last: r.cycle.last.unwrap_or(0.0),
        index: r.cycle.index,
        listed: listed as u64,
        begun: r.cycle.last.is_some(),
        boundary: r.boundary,
    }
}

fn refused(code: u32) -> LeafRound
    ensures { result.code ≡ code }
{
    LeafRound {
        code: u64::from(code),
        ..LeafRound::default()
    }
}

#[unsafe(no_mangle)]
pub extern "C" fn leaf_cycle_tags(mem: &mut [u8], o: Options, c: LeafCycle, clock: f64) -> LeafRound
    ensures { Rounded mem.old mem.new result o c clock }
{
    let code = size_check(mem);
    if code != 0 {
        return refused(code);
    }
    let r = rounds::round::cycle_tags(mem, o, Cycle::from(c), clock);
    rounded(r, asked_count(mem))
}

// The tags that the last round reads: their count and then each, in two bytes. This function and the
// next two stay three: the clauses of one that takes the part's function (when it may be called, and
// what the slice that it gives back holds) are longer than the bodies.
#[unsafe(no_mangle)]
pub extern "C" fn leaf_asked(mem: &[u8], out: &mut [u8]) -> u32
    ensures value { result ≡ size_check mem.now }
    ensures out_after { out.new ≡ part_left mem.now asked out.old }
{
    let code = size_check(mem);
    if code != 0 {
        return code;
    }
    put_bytes(out, asked_of(mem));
    0
}

// Likewise the tags in tiers, in their order of entry.
#[unsafe(no_mangle)]
pub extern "C" fn leaf_order(mem: &[u8], out: &mut [u8]) -> u32
    ensures value { result ≡ size_check mem.now }
    ensures out_after { out.new ≡ part_left mem.now order out.old }
{
    let code = size_check(mem);
    if code != 0 {
        return code;
    }
    put_bytes(out, order_of(mem));
    0
}

// Likewise the tags in grace.
#[unsafe(no_mangle)]
pub extern "C" fn leaf_graces(mem: &[u8], out: &mut [u8]) -> u32
    ensures value { result ≡ size_check mem.now }
    ensures out_after { out.new ≡ part_left mem.now graces out.old }
{
    let code = size_check(mem);
    if code != 0 {
        return code;
    }
    put_bytes(out, graces_of(mem));
    0
}

// The tier of a tag.
#[unsafe(no_mangle)]
pub extern "C" fn leaf_tier(mem: &[u8], k: usize) -> u32
    ensures { result ≡ tier_look mem.now k }
{
    let code = size_check(mem);
    if code != 0 {
        return code;
    }
    tier_of(mem, k) as u32
}
