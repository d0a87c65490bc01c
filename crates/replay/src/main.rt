// The oracle's recorded answers, replayed: each frame of the input is a call of an exported function with the answer that
// the Rust gave; oracle/FORMAT.md has its form. The first answer that differs ends the replay.
#![tactic(auto)]

mod calls; // creation, tier calls, loads, writes, stops, steps
mod frame; // one frame
mod input; // the frames of the input
mod looks; // looks

use input::Replay;
use std::io;

// The first read or write that fails ends the replay.
fn main(rt: HostRuntime) -> io::Result<()> {
    let report = Replay::new(rt.reader()).run()?;
    println!(rt; "{report}")
}
