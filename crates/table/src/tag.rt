// What the engine keeps of a tag.
ghost use Rattle.std.specs.Prelude.{◌≡◌};
ghost use Rattle.table.specs.Tag.{no_timing, no_settings, fresh_tag};

use values::entry::Entry;

// A tag that left tier 1 stays in tier 2 up to the deadline, and then goes to the tier `after`, 0 for none.
#[derive(Clone, Copy)]
pub struct Grace {
    pub deadline: f64,
    pub after: u8,
}

// When the tag was last listed in tier 1, if it was, and when to ask for it again, if it is missing.
#[derive(Clone, Copy)]
pub struct Timing {
    pub last: Option<f64>,
    pub retry: Option<f64>,
}

// A group, and its rate in milliseconds.
#[derive(Clone, Copy)]
pub struct GroupRate {
    pub number: u8,
    pub rate: u32,
}

// What the host sets for a tag: the deadband, its group if it has one, and whether it has a description.
#[derive(Clone, Copy)]
pub struct Settings {
    pub band: f64,
    pub group: Option<GroupRate>,
    pub described: bool,
}

// What is known of a tag's description: nothing, that it has none, or its number.
#[derive(Clone, Copy)]
pub enum Description {
    Unknown,
    Nothing,
    Is(u32),
}

// `tier` is 0 for none. `added`: new in tier 2 and in no round yet. `wants`: its description is to be asked for.
#[derive(Clone, Copy)]
pub struct Tag {
    pub tier: u8,
    pub grace: Option<Grace>,
    pub timing: Timing,
    pub added: bool,
    pub wants: bool,
    pub description: Description,
    pub settings: Settings,
    pub cached: Option<Entry>,
    pub published: Option<Entry>,
}

impl Timing {
    pub fn none() -> Timing
        ensures { result ≡ no_timing }
    {
        Timing {
            last: None,
            retry: None,
        }
    }
}

impl Settings {
    pub fn none() -> Settings
        ensures { result ≡ no_settings }
    {
        Settings {
            band: 0.0,
            group: None,
            described: false,
        }
    }
}

impl Tag {
    pub fn fresh() -> Tag
        ensures { result ≡ fresh_tag }
    {
        Tag {
            tier: 0,
            grace: None,
            timing: Timing::none(),
            added: false,
            wants: false,
            description: Description::Unknown,
            settings: Settings::none(),
            cached: None,
            published: None,
        }
    }
}
