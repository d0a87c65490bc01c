// The settings that the host lends, one for each tag.
ghost use Rattle.std.specs.Prelude.{◌≡◌, [], ◌<◌, get_or};
ghost use Rattle.settings.specs.Records.{records_in};
ghost use Rattle.settings.specs.Settings.{setting_count, setting_in, setting_ok, settings_ok};

use super::each::check_each;
use super::range::is_setting;
use memory::cells::cell;
use table::codec::settings_from;
use table::tag::Settings;

// The setting of tag i; past the end none.
pub fn setting_at(s: &[u8], i: usize) -> Settings
    ensures { result ≡ setting_in s.now i }
{
    if s.len() / 32 <= i {
        return Settings::none();
    }
    let group = cell(s, 4 * i + 1);
    let number = if group == 0 { 0 } else { group - 1 };
    settings_from(
        cell(s, 4 * i),
        group,
        number,
        cell(s, 4 * i + 2),
        cell(s, 4 * i + 3),
    )
}

fn is_setting_at(s: &[u8], i: usize) -> bool
    requires { i < setting_count s.now }
    ensures { result ≡ setting_ok (get_or (records_in 4 s.now) i []) }
{
    is_setting(
        cell(s, 4 * i),
        cell(s, 4 * i + 1),
        cell(s, 4 * i + 2),
        cell(s, 4 * i + 3),
    )
}

// Whether there is one setting for each of `count` tags, and each is in range.
#[tactic(auto, unfolding(crate::specs::Settings::settings_ok))]
pub fn check_settings(s: &[u8], count: usize) -> bool
    ensures { result ≡ settings_ok count s.now }
{
    let n = s.len() / 32;
    if n != count || s.len() != 32 * n {
        return false;
    }
    check_each(n, |i| is_setting_at(s, i))
}
