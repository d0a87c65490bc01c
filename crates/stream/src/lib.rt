// The round lister over standard input and output: how far a listing has come, what each line does, and the reading.
#![tactic(auto)]

mod calls;
mod input;
mod setup;
mod state;

use state::Stop;
use std::io;

// Prints the header, and then a line for each round that the input asks for. The first read or write that fails ends it.
pub fn list_rounds(rt: &(impl Input + Print)) -> io::Result<()> {
    println!(rt; "ms b n tags")?;
    match input::read_input(rt) {
        Err(Stop::Failed(e)) => Err(e),
        Ok(()) | Err(Stop::Refused) => Ok(()),
    }
}
