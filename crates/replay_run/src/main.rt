// Reads blocks of calls from standard input and writes their answers to standard output
// (tests/differential/FORMAT.md). Harness code: it says nothing in an `ensures`. It is proved safe and
// to end; the run holds what it does to the Rust's answers.
#![tactic(auto)]

mod blocks;

use crate::blocks::block;
use replay::answer::Answers;
use std::io::{Read, Write};

// Bytes of a block.
const BLOCK: usize = 131072;

// Every block of the input, as long as whole ones come: a read that fails is the end of the input, and
// what cannot be written is left out. The program is proved to end, so its loop has a bound, which no
// input reaches.
fn main(rt: HostRuntime) {
    let mut input = rt.stdin();
    let mut output = rt.stdout();
    let mut calls = [0u8; BLOCK];
    let mut answers = Answers::new();
    for _ in 0..u64::MAX {
        if input.read_exact(&mut calls).is_err() {
            return;
        }
        block(&calls, &mut answers);
        let _ = output.write_all(answers.as_slice());
    }
}
