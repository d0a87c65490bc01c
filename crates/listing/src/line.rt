// The lines that the round lister reads.
ghost use Rattle.std.specs.Prelude.{◌≡◌, cond, drop, eqb, length, ◌≤◌};
ghost use Rattle.listing.specs.Line.{fields, number_from, three_in, as_name, as_round, parsed, line_end};

// `Options` holds cycle, period and grace, `Set` time, tag and tier, `Round` the time; a name is all
// that stands from the third byte of its line on. `Other` is every line of another form.
#[derive(Clone, Copy)]
pub enum Line {
    Options(u64, u64, u64),
    Name,
    Set(u64, u64, u64),
    Round(u64),
    Other,
}

// What a field from `at` to `end` of digits alone is.
fn ended(value: u64, at: usize, end: usize) -> Option<(u64, usize)>
    ensures { result ≡ cond (eqb at end) None (Some (value, end)) }
{
    if at == end { None } else { Some((value, end)) }
}

// The number that is the field from place `at` on, and the place after it.
fn number_at(line: &[u8], at: usize) -> Option<(u64, usize)>
    requires { at ≤ length line.now }
    ensures { result ≡ number_from at (drop at line.now) }
{
    let mut value: u64 = 0;
    for i in at..line.len() {
        match line[i] {
            b' ' => return ended(value, at, i),
            b @ b'0'..=b'9' if i - at < 15 => value = value * 10 + u64::from(b - b'0'),
            _ => return None,
        }
    }
    ended(value, at, line.len())
}

// The three numbers that are all the fields.
fn three(line: &[u8]) -> Option<(u64, u64, u64)>
    ensures { result ≡ three_in (fields line.now) }
{
    let (a, i) = number_at(line, 0)?;
    if line.len() <= i {
        return None;
    }
    let (b, j) = number_at(line, i + 1)?;
    if line.len() <= j {
        return None;
    }
    let (c, k) = number_at(line, j + 1)?;
    if k < line.len() {
        return None;
    }
    Some((a, b, c))
}

fn name(line: &[u8]) -> Line
    ensures { result ≡ as_name (fields line.now) }
{
    for b in line {
        if *b == b' ' {
            return Line::Other;
        }
    }
    Line::Name
}

fn round(line: &[u8]) -> Line
    ensures { result ≡ as_round (fields line.now) }
{
    match number_at(line, 0) {
        Some((time, end)) if line.len() <= end => Line::Round(time),
        _ => Line::Other,
    }
}

// What a line says; `line` is without its line feed. Two arms match on three numbers alike: `map_or`
// was tried, and the proof did not close, as it did not reach what the closure gives back.
pub fn parse(line: &[u8]) -> Line
    ensures { result ≡ parsed line.now }
{
    let [letter, b' ', rest @ ..] = line else {
        return Line::Other;
    };
    match *letter {
        b'o' => match three(rest) {
            Some((cycle, period, grace)) => Line::Options(cycle, period, grace),
            None => Line::Other,
        },
        b'n' => name(rest),
        b's' => match three(rest) {
            Some((time, tag, tier)) => Line::Set(time, tag, tier),
            None => Line::Other,
        },
        b'c' => round(rest),
        _ => Line::Other,
    }
}

// The place of the first line feed from `from` on.
pub fn line_end(s: &[u8], from: usize) -> Option<usize>
    ensures { result ≡ line_end from (drop from s.now) }
{
    for i in from..s.len() {
        if s[i] == b'\n' {
            return Some(i);
        }
    }
    None
}
