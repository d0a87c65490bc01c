// What is recorded of a group.
ghost use Rattle.std.specs.Prelude.{◌≡◌};
ghost use Rattle.groups.specs.Groups.{fresh_group, group_read};

// `rate` is the last recorded, in milliseconds. `last` is the clock time of its last round, and `before` that of the
// round before, as far as there were so many.
#[derive(Clone, Copy)]
pub struct Group {
    pub rate: u32,
    pub last: Option<f64>,
    pub before: Option<f64>,
}

impl Group {
    pub fn fresh() -> Group
        ensures { result ≡ fresh_group }
    {
        Group {
            rate: 0,
            last: None,
            before: None,
        }
    }
}

// A tag of the group was read; its times move on with the first of a round.
pub fn read(x: Group, rate: u32, at: f64, first: bool) -> Group
    ensures { result ≡ group_read x rate at first }
{
    if first {
        Group {
            rate,
            last: Some(at),
            before: x.last,
        }
    } else {
        Group { rate, ..x }
    }
}
