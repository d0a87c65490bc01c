// The calls that a frame may name.
ghost use Rattle.std.specs.Prelude.{◌≡◌, ◌↔◌, ◌<◌, IsOk, IfOk};
ghost use Rattle.frames.specs.Calls.{number};

use std::fmt;

// The engine's functions, each with the number that stands for it in a frame.
#[derive(Clone, Copy, PartialEq, Eq)]
pub enum Call {
    Create,
    SetTier,
    Load,
    Write,
    Stop,
    Step,
    State,
    Stats,
    TierCounts,
    GroupStats,
    Table,
    Panel,
    Tag,
}

// The number of no call.
#[derive(Clone, Copy, Debug)]
pub struct NoCall;

impl TryFrom<u8> for Call {
    type Error = NoCall;

    fn try_from(n: u8) -> Result<Call, NoCall>
        ensures is_call { IsOk result ↔ (0 < n) × (n < 14) }
        ensures number { IfOk result (λ call. number call ≡ n) }
    {
        match n {
            1 => Ok(Call::Create),
            2 => Ok(Call::SetTier),
            3 => Ok(Call::Load),
            4 => Ok(Call::Write),
            5 => Ok(Call::Stop),
            6 => Ok(Call::Step),
            7 => Ok(Call::State),
            8 => Ok(Call::Stats),
            9 => Ok(Call::TierCounts),
            10 => Ok(Call::GroupStats),
            11 => Ok(Call::Table),
            12 => Ok(Call::Panel),
            13 => Ok(Call::Tag),
            _ => Err(NoCall),
        }
    }
}

impl fmt::Display for Call {
    fn fmt<W: fmt::Write>(&self, f: &mut fmt::Formatter<W>) -> fmt::Result {
        f.write_str(match self {
            Call::Create => "create",
            Call::SetTier => "set_tier",
            Call::Load => "load",
            Call::Write => "write",
            Call::Stop => "stop",
            Call::Step => "step",
            Call::State => "state",
            Call::Stats => "stats",
            Call::TierCounts => "tier_counts",
            Call::GroupStats => "group_stats",
            Call::Table => "table",
            Call::Panel => "panel",
            Call::Tag => "tag",
        })
    }
}
