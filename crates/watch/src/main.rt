// An engine watched from creation to a lost connection, where the host's side is a script. Each event of values
// is read as records, and printed by the names of its tags.
#![tactic(auto)]

mod host; // the script
mod print; // what is printed
mod run; // the steps

use run::Watch;
use std::io;

fn main(rt: HostRuntime) -> io::Result<()> {
    Watch::new().run(&rt)
}
