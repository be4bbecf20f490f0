// Worked byte strings of the plain layer, a line for each call: what was called, and what came.
#![tactic(auto)]

mod headers;
mod pairs;
mod records;

use print::GoesOn;
use std::io;
use wire::Refusal;
use wire::errors::Error;

// What cannot be written is left out, and nothing is said of it.
fn main(rt: HostRuntime) {
    let _ = lines(&GoesOn(&rt));
}

fn lines(rt: &impl Print) -> io::Result<()> {
    records::reset(rt)?;
    headers::values(rt)?;
    records::positions(rt)?;
    records::limits(rt)?;
    headers::wrong(rt)?;
    pairs::values(rt)?;
    pairs::lengths(rt)
}

// The end of a refused call's line: the number. The plain layer gives a refusal no figures.
fn refused(rt: &impl Print, error: Error) -> io::Result<()> {
    println!(rt; "refusal {}", Refusal::from(error).number)
}
