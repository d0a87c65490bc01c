// The version of a controller's tag table: none where the controller has none, or none is known yet.
ghost use Rattle.std.specs.Prelude.{◌≡◌};
ghost use Rattle.heads.specs.Version.{is_null, is_changed, is_reloaded, version_from};

// known: 0 for none.
#[repr(C)]
#[derive(Clone, Copy)]
pub struct VersionWords {
    pub known: u64,
    pub number: u64,
}

fn is_null(v: Option<u64>) -> bool
    ensures { result ≡ is_null v }
{
    matches!(v, None)
}

pub fn is_changed(old: Option<u64>, new: Option<u64>) -> bool
    ensures { result ≡ is_changed old new }
{
    match (old, new) {
        (None, None) => false,
        (Some(a), Some(b)) => a != b,
        _ => true,
    }
}

// Whether a new version counts a reload.
pub fn is_reloaded(old: Option<u64>, new: Option<u64>) -> bool
    ensures { result ≡ is_reloaded old new }
{
    is_changed(old, new) && !is_null(old)
}

pub fn version_from(known: u64, number: u64) -> Option<u64>
    ensures { result ≡ version_from known number }
{
    if known == 0 {
        return None;
    }
    Some(number)
}

impl From<Option<u64>> for VersionWords {
    ghost from_gives = { λ v words. version_from words.known words.number ≡ v };

    fn from(v: Option<u64>) -> VersionWords {
        match v {
            None => VersionWords {
                known: 0,
                number: 0,
            },
            Some(n) => VersionWords {
                known: 1,
                number: n,
            },
        }
    }
}
