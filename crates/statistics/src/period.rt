// The last period of a group.
ghost use Rattle.std.specs.Prelude.{◌≡◌};
ghost use Rattle.statistics.specs.Period.{period_of, timed_cell, period_cell};

use groups::group::Group;
use ieee::round::round1;
use words::scalar::word_of_float;

// In milliseconds, for a group that was read at least twice.
pub fn period_of(x: Group) -> Option<f64>
    ensures { result ≡ period_of x }
{
    match (x.last, x.before) {
        (Some(last), Some(before)) => Some(round1((last - before) * 1000.0)),
        _ => None,
    }
}

pub fn timed_cell(x: Group) -> u64
    ensures { result ≡ timed_cell x }
{
    match period_of(x) {
        None => 0,
        Some(_) => 1,
    }
}

pub fn period_cell(x: Group) -> u64
    ensures { result ≡ period_cell x }
{
    match period_of(x) {
        None => 0,
        Some(period) => word_of_float(period),
    }
}
