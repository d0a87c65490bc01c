// Rule 3: the deadband.
ghost use Rattle.std.specs.Prelude.{◌≡◌};
ghost use Rattle.ieee.specs.Band.{within};

// Whether `value` differs from `published` by less than `band`.
pub fn is_within(published: f64, value: f64, band: f64) -> bool
    ensures { result ≡ within published value band }
{
    let d = value - published;
    if d < 0.0 { -d < band } else { d < band }
}
