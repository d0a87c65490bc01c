// A tag as a row of 32 cells and back.
ghost use Rattle.std.specs.Prelude.{◌≡◌, ◌<◌};
ghost use Rattle.table.specs.Row.{grace_from, timing_from, group_from, settings_from, description_from, entry_words_at, tag_from};

use super::tag::{Description, Grace, GroupRate, Settings, Tag, Timing};
use words::entry::{EntryWords, held_from};
use words::scalar::{float_of_word, word_of_flag, word_of_float};
use words::time::{TimeWords, time_from};

// on: 0 where the tag is in no grace.
#[derive(Clone, Copy)]
pub struct GraceWords {
    pub on: u64,
    pub deadline: u64,
    pub after: u64,
}

// grouped: 0 where the tag has no group.
#[derive(Clone, Copy)]
struct GroupWords {
    grouped: u64,
    number: u64,
    rate: u64,
}

// No `From` for what comes as several cells, or goes into a row: that has no type of its own.
pub fn grace_from(on: u64, deadline: u64, after: u64) -> Option<Grace>
    ensures { result ≡ grace_from on deadline after }
{
    if on == 0 {
        return None;
    }
    Some(Grace {
        deadline: float_of_word(deadline),
        after: (after % 256) as u8,
    })
}

impl From<Option<Grace>> for GraceWords {
    ghost from_gives = { λ g words. grace_from words.on words.deadline words.after ≡ g };

    fn from(g: Option<Grace>) -> GraceWords {
        match g {
            None => GraceWords {
                on: 0,
                deadline: 0,
                after: 0,
            },
            Some(g) => GraceWords {
                on: 1,
                deadline: word_of_float(g.deadline),
                after: g.after as u64,
            },
        }
    }
}

pub fn timing_from(read: u64, last: u64, missing: u64, retry: u64) -> Timing
    ensures { result ≡ timing_from read last missing retry }
{
    Timing {
        last: time_from(read, last),
        retry: time_from(missing, retry),
    }
}

fn group_from(grouped: u64, number: u64, rate: u64) -> Option<GroupRate>
    ensures { result ≡ group_from grouped number rate }
{
    if grouped == 0 {
        return None;
    }
    Some(GroupRate {
        number: (number % 256) as u8,
        rate: (rate % 0x1_0000_0000) as u32,
    })
}

impl From<Option<GroupRate>> for GroupWords {
    ghost from_gives = { λ g words. group_from words.grouped words.number words.rate ≡ g };

    fn from(g: Option<GroupRate>) -> GroupWords {
        match g {
            None => GroupWords {
                grouped: 0,
                number: 0,
                rate: 0,
            },
            Some(g) => GroupWords {
                grouped: 1,
                number: g.number as u64,
                rate: g.rate as u64,
            },
        }
    }
}

pub fn settings_from(band: u64, grouped: u64, group: u64, rate: u64, described: u64) -> Settings
    ensures { result ≡ settings_from band grouped group rate described }
{
    Settings {
        band: float_of_word(band),
        group: group_from(grouped, group, rate),
        described: 0 < described,
    }
}

// No `From`: the number is one of many that a `u64` may be.
pub fn description_from(n: u64) -> Description
    ensures { result ≡ description_from n }
{
    match n {
        0 => Description::Unknown,
        1 => Description::Nothing,
        _ => Description::Is(((n - 2) % 0x1_0000_0000) as u32),
    }
}

pub fn description_word(d: Description) -> u64
    ensures { description_from result ≡ d }
{
    match d {
        Description::Unknown => 0,
        Description::Nothing => 1,
        Description::Is(n) => n as u64 + 2,
    }
}

// The entry that begins at the cell p.
fn entry_at(w: [u64; 32], p: usize) -> EntryWords
    requires { p < 27 }
    ensures { result ≡ entry_words_at w p }
{
    EntryWords {
        held: w[p],
        kind: w[p + 1],
        word: w[p + 2],
        t: w[p + 3],
        error: w[p + 4],
        message: w[p + 5],
    }
}

pub fn tag_from(w: [u64; 32]) -> Tag
    ensures { result ≡ tag_from w }
{
    Tag {
        tier: (w[0] % 256) as u8,
        grace: grace_from(w[1], w[2], w[3]),
        timing: timing_from(w[4], w[5], w[6], w[7]),
        added: 0 < w[8],
        wants: 0 < w[9],
        description: description_from(w[10]),
        settings: settings_from(w[11], w[12], w[13], w[14], w[15]),
        cached: held_from(entry_at(w, 16)),
        published: held_from(entry_at(w, 24)),
    }
}

pub fn tag_words(x: Tag) -> [u64; 32]
    ensures { tag_from result ≡ x }
{
    let grace = GraceWords::from(x.grace);
    let last = TimeWords::from(x.timing.last);
    let retry = TimeWords::from(x.timing.retry);
    let group = GroupWords::from(x.settings.group);
    let cached = EntryWords::from(x.cached);
    let published = EntryWords::from(x.published);
    [
        x.tier as u64,
        grace.on,
        grace.deadline,
        grace.after,
        last.known,
        last.word,
        retry.known,
        retry.word,
        word_of_flag(x.added),
        word_of_flag(x.wants),
        description_word(x.description),
        word_of_float(x.settings.band),
        group.grouped,
        group.number,
        group.rate,
        word_of_flag(x.settings.described),
        cached.held,
        cached.kind,
        cached.word,
        cached.t,
        cached.error,
        cached.message,
        0,
        0,
        published.held,
        published.kind,
        published.word,
        published.t,
        published.error,
        published.message,
        0,
        0,
    ]
}
