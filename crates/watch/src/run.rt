// Creation, tier calls and steps.
use super::host::{Host, RESULTS};
use super::print::Line;
use capi::calls::{wz_set_tier, wz_step};
use capi::creation::wz_create;
use changes::{Change, read_changes};
use heads::options::Options;
use lent::changes::CHANGE;
use names::directory::{Directory, MAX_NAMES};
use replies::reply::Reply;
use std::{io, str};
use step_checks::answer::Kind;

const NAMES: [u8; 18] = *b"AlarmFlowLevelPump";

const ENDS: [u32; 4] = [5, 9, 14, 18];

// The bytes of an engine of four names.
const MEMORY: usize = 4206;

// Four cells for each of four tags, none of them set.
const SETTINGS: [u8; 128] = [0; 128];

// Room for a change of every name that a directory can have.
const LIST: usize = MAX_NAMES * CHANGE;

// An engine with its host, the list that its steps fill, and the records that are read of it: arrays, so that no heap is
// needed.
#[derive(Drop)]
pub struct Watch {
    mem: [u8; MEMORY],
    host: Host,
    out: [u8; LIST],
    run: [Change; MAX_NAMES],
}

impl Watch {
    pub fn new() -> Watch {
        Watch {
            mem: [0; MEMORY],
            host: Host::default(),
            out: [0; LIST],
            run: [Change::default(); MAX_NAMES],
        }
    }

    // The engine is created, and each tag enters the first tier; the number of a refusal, or 0.
    fn begin(&mut self) -> u32 {
        let options = Options {
            cycle: 1.0,
            period: 3.0,
            grace: 0.0,
        };
        let code = wz_create(&mut self.mem, &NAMES, &ENDS, options, &SETTINGS, &[]);
        for tag in 0..4 {
            wz_set_tier(&mut self.mem, 0.0, tag, 1);
        }
        code
    }

    // One step. Its answer has a list of readings, or of settings for a version.
    fn step(&mut self, kind: u64) -> Reply {
        let clock = self.host.clock;
        let wall = self.host.wall();
        if kind == Kind::RESULTS {
            let list = self.host.readings();
            return wz_step(&mut self.mem, clock, wall, kind, 0, 0, &list, &mut self.out);
        }
        wz_step(
            &mut self.mem,
            clock,
            wall,
            kind,
            0,
            0,
            &SETTINGS,
            &mut self.out,
        )
    }

    // An event of values is read as records, over the first places of the run, and printed.
    fn event(&mut self, rt: &impl Print, r: Reply) -> io::Result<()> {
        if r.kind != Reply::VALUES {
            return Ok(());
        }
        let n = r.count as usize;
        if let Err(refusal) = read_changes(&mut self.run, &self.out, n) {
            return println!(rt; "refused {}", refusal.number());
        }
        let directory = Directory {
            names: &NAMES,
            ends: &ENDS,
        };
        println!(rt; "values {n}")?;
        for change in self.run.iter().take(n) {
            let name = directory.name(usize::from(change.tag));
            let name = str::from_utf8(name).unwrap_or("?");
            println!(rt;
                "{}",
                Line {
                    name,
                    change: *change
                }
            )?;
        }
        Ok(())
    }

    fn steps(&mut self, rt: &impl Print) -> io::Result<()> {
        let mut kind = Kind::BEGIN;
        for _ in 0..30 {
            let r = self.step(kind);
            if r.code != 0 {
                return println!(rt; "refused {}", r.code);
            }
            self.event(rt, r)?;
            self.host = self.host.after(r);
            kind = self.host.answer(r.kind);
        }
        Ok(())
    }

    pub fn run(&mut self, rt: &impl Print) -> io::Result<()> {
        let code = self.begin();
        if code != 0 {
            return println!(rt; "refused {code}");
        }
        self.steps(rt)
    }
}
