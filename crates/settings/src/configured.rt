// The configured groups: lent by the host, and kept in cells, the count and then two for each group.
ghost use Rattle.std.specs.Prelude.{◌≡◌, [], ◌∷◌, ◌<◌, length, get_or, set, take};
ghost use Rattle.settings.specs.Configured.{configured_from, no_group, given_groups, configured_ok, group_places, configured_in, group_room};

use super::each::check_each;
use super::range::is_group;
use memory::cells::{cell, places, put_cell};
use table::tag::GroupRate;

// No `From`, as a group comes as two cells.
#[tactic(auto, unfolding(crate::specs::Configured::configured_from))]
fn configured_from(number: u64, rate: u64) -> GroupRate
    ensures { result ≡ configured_from (number ∷ rate ∷ []) }
{
    GroupRate {
        number: (number % 256) as u8,
        rate: (rate % 0x1_0000_0000) as u32,
    }
}

// Whether the host lends whole groups, at most 16, and each is in range.
#[tactic(auto, unfolding(crate::specs::Configured::configured_ok))]
pub fn check_configured(s: &[u8]) -> bool
    ensures { result ≡ configured_ok s.now }
{
    let n = s.len() / 16;
    if s.len() != 16 * n || 16 < n {
        return false;
    }
    check_each(n, |i| is_group(cell(s, 2 * i), cell(s, 2 * i + 1)))
}

// The stored count; where that is above the places there are, all of them.
pub fn configured_count(c: &[u8]) -> usize
    ensures { result ≡ length (configured_in c.now) }
{
    let room = places(c, 2);
    let n = cell(c, 0);
    if n < room as u64 { n as usize } else { room }
}

// Not `setting_at` for another record: here a stored count says how many there are, and a setting lies as the host lent it.
pub fn configured_at(c: &[u8], i: usize) -> GroupRate
    ensures { result ≡ get_or (configured_in c.now) i no_group }
{
    if configured_count(c) <= i {
        return GroupRate { number: 0, rate: 0 };
    }
    configured_from(cell(c, 1 + 2 * i), cell(c, 2 + 2 * i))
}

fn put_place(c: &mut [u8], i: usize, number: u64, rate: u64)
    requires { i < group_room c.old }
    ensures { group_places c.new ≡ set (group_places c.old) i (configured_from (number ∷ rate ∷ [])) }
{
    put_cell(c, 1 + 2 * i, number);
    put_cell(c, 2 + 2 * i, rate);
}

// The groups that the host lends, as far as there is room.
pub fn keep_configured(c: &mut [u8], s: &[u8])
    ensures { configured_in c.new ≡ take (group_room c.old) (given_groups s.now) }
{
    let given = s.len() / 16;
    let room = places(c, 2);
    let n = if given < room { given } else { room };
    for i in 0..n {
        put_place(c, i, cell(s, 2 * i), cell(s, 2 * i + 1));
    }
    put_cell(c, 0, n as u64);
}
