// Counts of the tags of the table order.
ghost use Rattle.std.specs.Prelude.{◌≡◌, ◌<◌, Bool, ℕ, length, get_or};
ghost use Rattle.lists.specs.Keep.{keep};
ghost use Rattle.tags.specs.Lists.{list_in};
ghost use Rattle.table.specs.Tag.{fresh_tag};
ghost use Rattle.table.specs.Table.{table_in};
ghost use Rattle.statistics.specs.Counts.{tier_count, is_in_group, group_tags};

use fields::{settings_of, tier_of};
use tags::{at, count};

// How many tags of a list pass a test: whatever test of tags agrees with it, so many does that keep.
fn count_where<F: Fn(usize) -> bool>(list: &[u8], test: F) -> usize
    requires { F.IsAlwaysCallable test }
    ensures { (passes : ℕ → Bool) → ((k : ℕ) (r : Bool) → k < 0x1_0000_0000_0000_0000 → F.post test k r → r ≡ passes k) → result ≡ length (keep passes (list_in list.now)) }
{
    let mut n: usize = 0;
    for i in 0..count(list) {
        if test(at(list, i)) {
            n += 1;
        }
    }
    n
}

pub fn tier_count(t: &[u8], order: &[u8], tier: u8) -> usize
    ensures { result ≡ tier_count tier (table_in t.now) (list_in order.now) }
{
    count_where(order, |k| tier_of(t, k) == tier)
}

fn is_in_group(t: &[u8], k: usize, group: usize) -> bool
    ensures { result ≡ is_in_group group (get_or (table_in t.now) k fresh_tag) }
{
    if tier_of(t, k) != 1 {
        return false;
    }
    match settings_of(t, k).group {
        None => false,
        Some(g) => g.number as usize == group,
    }
}

pub fn group_tags(t: &[u8], order: &[u8], group: usize) -> usize
    ensures { result ≡ group_tags group (table_in t.now) (list_in order.now) }
{
    count_where(order, |k| is_in_group(t, k, group))
}
