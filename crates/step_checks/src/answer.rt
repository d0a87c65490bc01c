// An answer of the host.
ghost use Rattle.std.specs.Prelude.{◌≡◌};
ghost use Rattle.step_checks.specs.Kinds.{is_error, kind_from};

// A version is none where the controller has none. A refusal has the numbers of its error and of its message.
#[derive(Clone, Copy)]
pub enum Kind {
    Begin,
    Opened,
    NotOpened,
    Version(Option<u64>),
    Results,
    Lost,
    Written,
    Refused(u64, u64),
    Descriptions,
    NotDescribed,
    Waited,
    Taken,
    Unknown,
}

// An answer: its kind, and the list that came with it.
#[derive(Clone, Copy)]
pub struct Answer<'a> {
    pub kind: Kind,
    pub list: &'a [u8],
}

// The numbers of the kinds, as the C interface has them.
impl Kind {
    pub const BEGIN: u64 = 0;

    pub const OPENED: u64 = 1;

    pub const NOT_OPENED: u64 = 2;

    pub const NO_VERSION: u64 = 3;

    pub const VERSION: u64 = 4;

    pub const RESULTS: u64 = 5;

    pub const LOST: u64 = 6;

    pub const WRITTEN: u64 = 7;

    pub const REFUSED: u64 = 8;

    pub const DESCRIPTIONS: u64 = 9;

    pub const NOT_DESCRIBED: u64 = 10;

    pub const WAITED: u64 = 11;

    pub const TAKEN: u64 = 12;
}

pub(crate) fn is_error(n: u64) -> bool
    ensures { result ≡ is_error n }
{
    n != 0 && n < 0x1_0003
}

// The one place where the numbers of an answer become its kind. `number` is that of a version or of an error. What is no
// kind, and a refusal without an error, no phase waits for.
#[tactic(auto, unfolding(crate::specs::Kinds::kind_from))]
pub fn kind_from(kind: u64, number: u64, message: u64) -> Kind
    ensures { result ≡ kind_from kind number message }
{
    match kind {
        Kind::BEGIN => Kind::Begin,
        Kind::OPENED => Kind::Opened,
        Kind::NOT_OPENED => Kind::NotOpened,
        Kind::NO_VERSION => Kind::Version(None),
        Kind::VERSION => Kind::Version(Some(number)),
        Kind::RESULTS => Kind::Results,
        Kind::LOST => Kind::Lost,
        Kind::WRITTEN => Kind::Written,
        Kind::REFUSED if is_error(number) => Kind::Refused(number, message),
        Kind::DESCRIPTIONS => Kind::Descriptions,
        Kind::NOT_DESCRIBED => Kind::NotDescribed,
        Kind::WAITED => Kind::Waited,
        Kind::TAKEN => Kind::Taken,
        _ => Kind::Unknown,
    }
}
