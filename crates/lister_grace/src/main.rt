// The round lister on stored input: graces that run out, change what follows, and end.
// A crate has one stored run, so that each run of the lister is a crate of its own, whose main makes this one call.
#![tactic(auto)]

use std::io;

fn main(rt: HostRuntime) -> io::Result<()> {
    stream::list_rounds(&rt)
}
