// The round lister: document 01's program, here on document 01's example.
// A crate has one stored run, so that each run of the lister is a crate of its own, whose main makes this one call.
#![tactic(auto)]

use std::io;

fn main(rt: HostRuntime) -> io::Result<()> {
    stream::list_rounds(&rt)
}
