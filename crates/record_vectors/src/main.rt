// Worked records through the encoder, a line for each: the record, and what came.
#![tactic(auto)]

mod cases;
mod records;

use print::GoesOn;
use std::io;

// What cannot be written is left out, and nothing is said of it.
fn main(rt: HostRuntime) {
    let _ = lines(&GoesOn(&rt));
}

fn lines(rt: &impl Print) -> io::Result<()> {
    cases::lengths(rt)?;
    cases::values(rt)?;
    cases::identities(rt)?;
    records::two(rt)
}
