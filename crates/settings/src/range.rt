// Check 14: ranges of what the host sets.
ghost use Rattle.std.specs.Prelude.{◌≡◌, ◌∷◌, []};
ghost use Rattle.settings.specs.Settings.{rate_ok, setting_ok};
ghost use Rattle.settings.specs.Configured.{group_ok};

use ieee::number::is_finite;
use words::scalar::float_of_word;

// The low 32 bits of the cell are the rate.
fn is_rate(rate: u64) -> bool
    ensures { result ≡ rate_ok rate }
{
    rate % 0x1_0000_0000 != 0
}

// Without a group the rate does not count.
#[tactic(auto, unfolding(crate::specs::Settings::setting_ok))]
pub fn is_setting(band: u64, group: u64, rate: u64, described: u64) -> bool
    ensures { result ≡ setting_ok (band ∷ group ∷ rate ∷ described ∷ []) }
{
    is_finite(float_of_word(band)) && (group == 0 || (group <= 16 && is_rate(rate)))
}

#[tactic(auto, unfolding(crate::specs::Configured::group_ok))]
pub fn is_group(number: u64, rate: u64) -> bool
    ensures { result ≡ group_ok (number ∷ rate ∷ []) }
{
    number < 16 && is_rate(rate)
}
