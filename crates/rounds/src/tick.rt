// The tick of a round, and whether the round is at a boundary.
ghost use Rattle.std.specs.Prelude.{◌≡◌};
ghost use Rattle.tags.specs.Lists.{list_in};
ghost use Rattle.table.specs.Table.{table_in};
ghost use Rattle.rounds.specs.Tick.{due_since, rate_of, tick_of, boundary_at};

use fields::{settings_of, tier_of};
use heads::cycle::Cycle;
use ieee::times::{is_due, lesser, rate_seconds};
use table::tag::Settings;
use tags::{at, count};

// The rate of a tag in seconds: its group's, or the cycle.
pub fn rate_of(s: Settings, cycle: f64) -> f64
    ensures { result ≡ rate_of s cycle }
{
    match s.group {
        None => cycle,
        Some(g) => rate_seconds(g.rate),
    }
}

pub fn tick_of(t: &[u8], order: &[u8], cycle: f64) -> f64
    ensures { result ≡ tick_of (table_in t.now) (list_in order.now) cycle }
{
    let mut tick = cycle;
    for i in 0..count(order) {
        let k = at(order, i);
        if tier_of(t, k) == 1 {
            tick = lesser(tick, rate_of(settings_of(t, k), cycle));
        }
    }
    tick
}

// Whether `rate` seconds have gone by since `last`, to half a tick; what never was is due.
pub fn is_due_since(last: Option<f64>, clock: f64, half: f64, rate: f64) -> bool
    ensures { result ≡ due_since last clock half rate }
{
    match last {
        None => true,
        Some(last) => is_due(clock, half, last, rate),
    }
}

pub fn is_boundary(c: Cycle, clock: f64, half: f64, cycle: f64) -> bool
    ensures { result ≡ boundary_at c clock half cycle }
{
    is_due_since(c.last, clock, half, cycle)
}
