// Rules 6 and 7, and check 21: times in seconds.
ghost use Rattle.std.specs.Prelude.{◌≡◌};
ghost use Rattle.ieee.specs.Times.{rate_seconds, due_at, least, held_back, clock_ok};

use crate::casts;

// A rate, given in milliseconds.
pub fn rate_seconds(ms: u32) -> f64
    ensures { result ≡ rate_seconds ms }
{
    (ms as f64) / 1000.0
}

// A time, given in whole milliseconds.
pub fn seconds(ms: u64) -> f64
    ensures { result ≡ rate_seconds ms }
{
    casts::from_u64(ms) / 1000.0
}

// Whether a tag or a boundary last met at `last` is due again, `half` being half a tick.
pub fn is_due(clock: f64, half: f64, last: f64, rate: f64) -> bool
    ensures { result ≡ due_at clock half last rate }
{
    clock + half >= last + rate
}

pub fn lesser(a: f64, b: f64) -> f64
    ensures { result ≡ least a b }
{
    if b < a { b } else { a }
}

// Whether a missing mark keeps its tag out of a round at `clock`.
pub fn is_held_back(mark: f64, clock: f64) -> bool
    ensures { result ≡ held_back mark clock }
{
    clock < mark
}

// Whether a clock reading passes check 21.
pub fn is_clock(x: f64) -> bool
    ensures { result ≡ clock_ok x }
{
    x >= 0.0 && x <= 1000000000.0
}
