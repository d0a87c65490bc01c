// Which groups there are: the configured ones, then the recorded ones. A number named again keeps its first place.
ghost use Rattle.std.specs.Prelude.{◌≡◌, length, get_or};
ghost use Rattle.tags.specs.Lists.{list_in};
ghost use Rattle.settings.specs.Configured.{configured_in};
ghost use Rattle.statistics.specs.Numbers.{named, is_first, group_numbers};

use settings::configured::{configured_at, configured_count};
use tags::{at, count};

pub fn number_at(configured: &[u8], recorded: &[u8], i: usize) -> usize
    ensures { result ≡ get_or (named (configured_in configured.now) (list_in recorded.now)) i 0 }
{
    let n = configured_count(configured);
    if i < n {
        configured_at(configured, i).number as usize
    } else {
        at(recorded, i - n)
    }
}

pub fn named_count(configured: &[u8], recorded: &[u8]) -> usize
    ensures { result ≡ length (named (configured_in configured.now) (list_in recorded.now)) }
{
    configured_count(configured) + count(recorded)
}

// Whether place i is the first one with its number. A loop of its own, as `tags::contains` and `panel::check` have too: what they
// search is read in three ways, and one function with a closure that reads has a longer clause than each of these.
pub fn is_first(configured: &[u8], recorded: &[u8], i: usize) -> bool
    ensures { result ≡ is_first (named (configured_in configured.now) (list_in recorded.now)) i }
{
    if named_count(configured, recorded) <= i {
        return false;
    }
    let group = number_at(configured, recorded, i);
    for j in 0..i {
        if number_at(configured, recorded, j) == group {
            return false;
        }
    }
    true
}

// It counts places, and `count_where` tags of a list: one for both would promise neither in its own words.
pub fn group_count(configured: &[u8], recorded: &[u8]) -> usize
    ensures { result ≡ length (group_numbers (configured_in configured.now) (list_in recorded.now)) }
{
    let m = named_count(configured, recorded);
    let mut n: usize = 0;
    for i in 0..m {
        if is_first(configured, recorded, i) {
            n += 1;
        }
    }
    n
}
