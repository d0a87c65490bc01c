// The refusals of calls. Inside the engine a check answers `Ok`, or the refusal; the C interface hands its number on.
#![tactic(auto)]

ghost use Rattle.std.specs.Prelude.{◌≡◌};
ghost use Rattle.refusals.specs.Refusals.{number, code};

// The numbers are those of document 01's checks. The last, memory that no engine has the length of, is none of them.
#[derive(Clone, Copy)]
pub enum Refusal {
    NameCount = 1,
    NameEnds = 2,
    NameBytes = 3,
    NameOrder = 4,
    Cycle = 11,
    Period = 12,
    Grace = 13,
    Settings = 14,
    Clock = 21,
    ClockBehind = 22,
    Tag = 23,
    Tier = 24,
    NotConnected = 31,
    QueueFull = 32,
    NotAwaited = 41,
    NotFinite = 42,
    ListRoom = 43,
    PanelLength = 51,
    PanelTag = 53,
    PanelTwice = 54,
    PanelTier = 55,
    TierHeld = 56,
    NotAnEngine = 100,
}

impl Refusal {
    pub fn number(self) -> u32
        ensures { result ≡ number self }
    {
        self as u32
    }
}

// 0 where nothing refuses.
pub fn code(answer: Result<(), Refusal>) -> u32
    ensures { result ≡ code answer }
{
    match answer {
        Ok(()) => 0,
        Err(refusal) => refusal.number(),
    }
}
