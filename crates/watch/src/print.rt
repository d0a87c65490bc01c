// What is printed of a change.
use changes::Change;
use std::fmt;
use values::entry::Quality;
use values::error::kind_number;
use values::value::Value;

// A value; a float with one place behind the point.
#[derive(Clone, Copy)]
struct Shown(Value);

impl fmt::Display for Shown {
    fn fmt<W: fmt::Write>(&self, f: &mut fmt::Formatter<W>) -> fmt::Result {
        match self.0 {
            Value::Null => write!(f, "null"),
            Value::Bool(b) => write!(f, "{b}"),
            Value::Int(n) => write!(f, "{n}"),
            Value::Float(x) => write!(f, "{x:.1}"),
        }
    }
}

fn name_of(quality: Quality) -> &'static str {
    match quality {
        Quality::Good => "good",
        Quality::Bad => "bad",
        Quality::Missing => "missing",
        Quality::Stale => "stale",
    }
}

// A line: name, value, quality, wall time, and the number of the error's kind.
#[derive(Clone, Copy)]
pub struct Line<'a> {
    pub name: &'a str,
    pub change: Change,
}

impl<'a> fmt::Display for Line<'a> {
    fn fmt<W: fmt::Write>(&self, f: &mut fmt::Formatter<W>) -> fmt::Result {
        let entry = self.change.entry;
        let quality = name_of(entry.quality);
        write!(
            f,
            "  {} {} {quality} at {}",
            self.name,
            Shown(entry.value),
            entry.t
        )?;
        if let Some(e) = entry.error {
            write!(f, ", error {}", kind_number(e.kind))?;
        }
        Ok(())
    }
}
