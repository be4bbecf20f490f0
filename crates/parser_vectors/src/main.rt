// Worked bytes in pieces through a parser, a line for each stream: what was pushed, and what came.
#![tactic(auto)]

mod answers;
mod cases;
mod streams;

use print::GoesOn;
use std::io;

// What cannot be written is left out, and nothing is said of it.
fn main(rt: HostRuntime) {
    let _ = lines(&GoesOn(&rt));
}

fn lines(rt: &impl Print) -> io::Result<()> {
    cases::lengths(rt)?;
    cases::values(rt)?;
    cases::headers(rt)?;
    cases::identities(rt)?;
    streams::all_ones(rt)?;
    streams::two_records(rt)
}
