// Checks 14 and 42: floats that are numbers.
ghost use Rattle.std.specs.Prelude.{◌≡◌};
ghost use Rattle.std.specs.Float.Ieee.Scale.{finite};

// Neither infinite nor a NaN, for which both tests fail.
pub fn is_finite(x: f64) -> bool
    ensures { result ≡ finite x }
{
    let top = 1.0 / 0.0;
    x < top && -top < x
}
