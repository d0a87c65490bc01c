// Checks 51, 53, 54 and 55.
ghost use Rattle.std.specs.Prelude.{◌≡◌, [], ◌≤◌, length, take};
ghost use Rattle.refusals.specs.Refusals.{code};
ghost use Rattle.tags.specs.Lists.{member};
ghost use Rattle.panel.specs.Panel.{tags_of, tiers_of, bad_tier, entry_check, panel_check};

use super::form::{byte, entries, tag_at, tier_at};
use refusals::Refusal;

// Whether one of the first n tags is k. A loop beside that over the entries: it answers for one of them, and which check
// comes first is said there.
fn seen(list: &[u8], k: u8, n: usize) -> bool
    requires { n ≤ length (tags_of list.now) }
    ensures { result ≡ member k (take n (tags_of list.now)) }
{
    for i in 0..n {
        if tag_at(list, i) == k {
            return true;
        }
    }
    false
}

fn bad_tier(tier: u8) -> bool
    ensures { result ≡ bad_tier tier }
{
    3 < tier || tier == 0
}

// The first bad entry decides, and there the lowest number.
fn check_entries(list: &[u8], count: usize) -> Result<(), Refusal>
    ensures { code result ≡ entry_check count [] (tags_of list.now) (tiers_of list.now) }
{
    for i in 0..entries(list) {
        let k = tag_at(list, i);
        if count <= k as usize {
            return Err(Refusal::PanelTag);
        }
        if seen(list, k, i) {
            return Err(Refusal::PanelTwice);
        }
        if bad_tier(tier_at(list, i)) {
            return Err(Refusal::PanelTier);
        }
    }
    Ok(())
}

// The first check that refuses the list for a directory of `count` names.
pub fn check_panel(list: &[u8], count: usize) -> Result<(), Refusal>
    ensures { code result ≡ panel_check count list.now }
{
    if list.len() == 0 || list.len() != 1 + 2 * (byte(list, 0) as usize) {
        return Err(Refusal::PanelLength);
    }
    check_entries(list, count)
}
