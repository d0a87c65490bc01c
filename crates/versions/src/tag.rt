// A tag as a version change or a connect leaves it.
ghost use Rattle.std.specs.Prelude.{◌≡◌};
ghost use Rattle.versions.specs.Versions.{mark_cleared, wants_taken, description_taken, tag_taken};

use table::tag::{Description, Settings, Tag, Timing};

fn mark_cleared(x: Timing) -> Timing
    ensures { result ≡ mark_cleared x }
{
    Timing { retry: None, ..x }
}

fn wants_taken(x: Tag, bit: bool, changed: bool) -> bool
    ensures { result ≡ wants_taken x bit changed }
{
    x.wants || changed && x.tier != 0 && !bit
}

// A change forgets what is known.
fn description_taken(d: Description, changed: bool) -> Description
    ensures { result ≡ description_taken d changed }
{
    if changed { Description::Unknown } else { d }
}

pub fn tag_taken(x: Tag, s: Settings, bit: bool, changed: bool) -> Tag
    ensures { result ≡ tag_taken x s bit changed }
{
    Tag {
        timing: mark_cleared(x.timing),
        wants: wants_taken(x, bit, changed),
        description: description_taken(x.description, changed),
        settings: s,
        ..x
    }
}
