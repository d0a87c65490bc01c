// Rule 10: how many tags each tier has, and what is told of each group.
#![tactic(auto)]

pub mod counts;
pub mod numbers; // which groups there are
pub mod period;
pub mod rate;

ghost use Rattle.std.specs.Prelude.{◌≡◌};
ghost use Rattle.lent.specs.Lent.{cell_bytes, record_put, wrote_all};
ghost use Rattle.statistics.specs.Stats.{facts, stat_cells, group_stats, groups_told};

use counts::group_tags;
use groups::group_of;
use lent::put_record;
use numbers::{group_count, is_first, named_count, number_at};
use period::{period_cell, timed_cell};
use rate::group_rate;

// What statistics are made of: the table with its order, the configured groups, and what is recorded of groups.
#[derive(Clone, Copy)]
struct Sources<'a> {
    t: &'a [u8],
    order: &'a [u8],
    configured: &'a [u8],
    groups: &'a [u8],
    recorded: &'a [u8],
}

fn put_group_stat<'a>(out: &mut [u8], i: usize, from: &Sources<'a>, group: usize)
    ensures { out.new ≡ record_put out.old i (stat_cells (facts from.now.t.now from.now.order.now from.now.configured.now from.now.groups.now from.now.recorded.now) group) }
{
    let x = group_of(from.groups, group);
    let cells = [
        group as u64,
        group_rate(from.configured, from.groups, from.recorded, group) as u64,
        group_tags(from.t, from.order, group) as u64,
        timed_cell(x),
        period_cell(x),
    ];
    put_record(out, i, &cells);
}

// A record of five cells for each group at the start of `out`, and how many groups there are. Where `out` is too short for
// all of them nothing is written, and 0 is answered.
pub fn group_stats(
    t: &[u8],
    order: &[u8],
    configured: &[u8],
    groups: &[u8],
    recorded: &[u8],
    out: &mut [u8],
) -> usize
    ensures value { result ≡ groups_told out.old (facts t.now order.now configured.now groups.now recorded.now) }
    ensures out_after { out.new ≡ wrote_all out.old (cell_bytes (group_stats (facts t.now order.now configured.now groups.now recorded.now))) }
{
    let n = group_count(configured, recorded);
    if out.len() / 40 < n {
        return 0;
    }
    let m = named_count(configured, recorded);
    let from = Sources {
        t,
        order,
        configured,
        groups,
        recorded,
    };
    let mut done: usize = 0;
    for i in 0..m {
        if is_first(configured, recorded, i) {
            put_group_stat(out, 5 * done, &from, number_at(configured, recorded, i));
            done += 1;
        }
    }
    n
}
