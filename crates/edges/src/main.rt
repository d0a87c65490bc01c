// Document 01's cases at the edges, run through the code: each line has the case and what came out.
#![tactic(auto)]

use std::{fmt, io};
use values::entry::{Entry, Quality};
use values::value::Value;

fn answer(yes: bool) -> &'static str {
    if yes { "yes" } else { "no" }
}

fn good(value: Value) -> Entry {
    Entry {
        value,
        quality: Quality::Good,
        t: 0,
        error: None,
    }
}

// What becomes of a good reading.
#[derive(Clone, Copy)]
enum Outcome {
    Same,
    Withheld,
    Sent,
}

impl fmt::Display for Outcome {
    fn fmt<W: fmt::Write>(&self, f: &mut fmt::Formatter<W>) -> fmt::Result {
        f.write_str(match self {
            Outcome::Same => "same",
            Outcome::Withheld => "withheld",
            Outcome::Sent => "sent",
        })
    }
}

fn outcome_of(band: f64, published: Value, read: Value) -> Outcome {
    let a = good(published);
    let b = good(read);
    if values::entry::same(a, b) {
        Outcome::Same
    } else if values::deadband::within_deadband(band, a, b) {
        Outcome::Withheld
    } else {
        Outcome::Sent
    }
}

// The starred cases: their names and what is tried.
fn slices(rt: &impl Print) -> io::Result<()> {
    let cases = [
        ("30, 1", 30.0, 1.0),
        ("2.5, 1", 2.5, 1.0),
        ("3.5, 1", 3.5, 1.0),
        ("0.4, 1", 0.4, 1.0),
        ("5, 0", 5.0, 0.0),
    ];
    for (name, period, cycle) in cases {
        println!(rt; "S of {name}: {}", ieee::round::slices(period, cycle))?;
    }
    Ok(())
}

fn bands(rt: &impl Print) -> io::Result<()> {
    let ten = Value::Float(10.0);
    let large = Value::Int(9007199254740992);
    let cases = [
        ("0.5, 10.0 then 10.25", 0.5, ten, Value::Float(10.25)),
        ("0.5, 10.0 then 10.5", 0.5, ten, Value::Float(10.5)),
        (
            "0, integer 1 then float 1.0",
            0.0,
            Value::Int(1),
            Value::Float(1.0),
        ),
        (
            "0, 0.0 then -0.0",
            0.0,
            Value::Float(0.0),
            Value::Float(-0.0),
        ),
        (
            "1, 9007199254740992 then 9007199254740993",
            1.0,
            large,
            Value::Int(9007199254740993),
        ),
    ];
    for (name, band, published, read) in cases {
        println!(rt; "band {name}: {}", outcome_of(band, published, read))?;
    }
    Ok(())
}

fn unstarred(rt: &impl Print) -> io::Result<()> {
    println!(rt;
        "round1(12.25) is 12.2: {}",
        answer(ieee::round::round1(12.25) == 12.2)
    )?;
    // A tag found missing in a round that started at 5.0 is marked for 10 s.
    let mark = 5.0 + 10.0;
    for clock in [14.5, 15.0] {
        let held = answer(ieee::times::is_held_back(mark, clock));
        println!(rt; "missing at start 5.0, dropped at {clock:.1}: {held}")?;
    }
    Ok(())
}

fn main(rt: HostRuntime) -> io::Result<()> {
    slices(&rt)?;
    bands(&rt)?;
    unstarred(&rt)
}
