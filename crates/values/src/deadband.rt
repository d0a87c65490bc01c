// Rule 3: which changes are withheld.
ghost use Rattle.std.specs.Prelude.{◌≡◌};
ghost use Rattle.values.specs.Deadband.{near, within_deadband};

use super::entry::{Entry, is_good};
use super::error::same_error;
use super::value::{Value, is_number, number_of};

// Whether both are numbers and nearer to each other than the band.
fn is_near(band: f64, published: Value, new: Value) -> bool
    ensures { result ≡ near band published new }
{
    is_number(published)
        && is_number(new)
        && ieee::band::is_within(number_of(published), number_of(new), band)
}

// Whether a new entry is withheld, being too near to the published one. An absent band is 0.
pub fn within_deadband(band: f64, published: Entry, new: Entry) -> bool
    ensures { result ≡ within_deadband band published new }
{
    is_good(published.quality)
        && is_good(new.quality)
        && same_error(published.error, new.error)
        && is_near(band, published.value, new.value)
}
