// The rate of a group in milliseconds.
ghost use Rattle.std.specs.Prelude.{◌≡◌};
ghost use Rattle.tags.specs.Lists.{list_in};
ghost use Rattle.groups.specs.Groups.{groups_in};
ghost use Rattle.settings.specs.Configured.{configured_in};
ghost use Rattle.statistics.specs.Rate.{last_rate, group_rate};

use groups::group_of;
use settings::configured::{configured_at, configured_count};
use tags::contains;

fn last_rate(configured: &[u8], group: usize) -> u32
    ensures { result ≡ last_rate (configured_in configured.now) group }
{
    let mut rate: u32 = 0;
    for i in 0..configured_count(configured) {
        let x = configured_at(configured, i);
        if x.number as usize == group {
            rate = x.rate;
        }
    }
    rate
}

pub fn group_rate(configured: &[u8], groups: &[u8], recorded: &[u8], group: usize) -> u32
    ensures { result ≡ group_rate (configured_in configured.now) (groups_in groups.now) (list_in recorded.now) group }
{
    if contains(recorded, group) {
        group_of(groups, group).rate
    } else {
        last_rate(configured, group)
    }
}
