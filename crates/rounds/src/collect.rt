// Tags of a list that pass a test.
ghost use Rattle.std.specs.Prelude.{◌≡◌, ℕ, Bool};
ghost use Rattle.lists.specs.Keep.{keep};
ghost use Rattle.tags.specs.Lists.{list_in, room, fitted};
ghost use Rattle.rounds.specs.Collect.{Decides};

use tags::{at, clear, count, push};

// The tags of `from` that pass the test, in their order, into `into`.
pub fn collect<F: Fn(usize) -> bool>(from: &[u8], into: &mut [u8], test: F)
    requires { F.IsAlwaysCallable test }
    ensures { (p : ℕ → Bool) → Decides (F.post test) p → list_in into.new ≡ fitted (room into.old) (keep p (list_in from.now)) }
{
    clear(into);
    for i in 0..count(from) {
        let k = at(from, i);
        if test(k) {
            push(into, k);
        }
    }
}
