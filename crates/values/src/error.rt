// Rule 2: why a reading failed.
ghost use Rattle.std.specs.Prelude.{◌≡◌};
ghost use Rattle.values.specs.Error.{kind_number, same_tag_error, same_error};

#[derive(Clone, Copy)]
pub enum ErrorKind {
    NotFound,
    Access,
    Other(u16),
}

// The message is the host's number for a text.
#[derive(Clone, Copy)]
pub struct TagError {
    pub kind: ErrorKind,
    pub message: u32,
}

// 0 for NotFound, 1 for Access, and the code plus 2 for another.
pub fn kind_number(k: ErrorKind) -> u32
    ensures { result ≡ kind_number k }
{
    match k {
        ErrorKind::NotFound => 0,
        ErrorKind::Access => 1,
        ErrorKind::Other(code) => code as u32 + 2,
    }
}

// Here and below no derived `==`, which would call std, as an engine's code must not.
fn same_tag_error(a: TagError, b: TagError) -> bool
    ensures { result ≡ same_tag_error a b }
{
    kind_number(a.kind) == kind_number(b.kind) && a.message == b.message
}

// Whether both are none, or both the same kind with the same message.
pub fn same_error(a: Option<TagError>, b: Option<TagError>) -> bool
    ensures { result ≡ same_error a b }
{
    match (a, b) {
        (None, None) => true,
        (Some(x), Some(y)) => same_tag_error(x, y),
        _ => false,
    }
}
