// Rules 3, 4 and 6 on numbers.
ghost use Rattle.std.specs.Prelude.{◌≡◌};
ghost use Rattle.std.specs.Float.{binary64};
ghost use Rattle.std.specs.Float.Ieee.{of_int};
ghost use Rattle.ieee.specs.Round.{round_ties_even, slices_of, round1_of};
ghost use Rattle.ieee.specs.Times.{rate_seconds, clock_ok};

#[unsafe(no_mangle)]
pub extern "C" fn leaf_round_ties_even(x: f64) -> f64
    ensures { result ≡ round_ties_even x }
{
    ieee::round::round_ties_even(x)
}

#[unsafe(no_mangle)]
pub extern "C" fn leaf_slices(period: f64, cycle: f64) -> u64
    ensures { result ≡ slices_of period cycle }
{
    ieee::round::slices(period, cycle)
}

#[unsafe(no_mangle)]
pub extern "C" fn leaf_round1(v: f64) -> f64
    ensures { result ≡ round1_of v }
{
    ieee::round::round1(v)
}

#[unsafe(no_mangle)]
pub extern "C" fn leaf_from_i64(n: i64) -> f64
    ensures { result ≡ of_int binary64 n }
{
    ieee::round::from_i64(n)
}

#[unsafe(no_mangle)]
pub extern "C" fn leaf_rate_seconds(ms: u32) -> f64
    ensures { result ≡ rate_seconds ms }
{
    ieee::times::rate_seconds(ms)
}

#[unsafe(no_mangle)]
pub extern "C" fn leaf_is_clock(x: f64) -> bool
    ensures { result ≡ clock_ok x }
{
    ieee::times::is_clock(x)
}
