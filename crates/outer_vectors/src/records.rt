// encode_outer: the bytes it writes, and refusals 22 and 24.
use crate::headers::decode;
use crate::refused;
use outer::encode_outer;
use print::Hex;
use std::io;
use wire::errors::Error;
use wire::{Epoch, Sequence};

// The end of an encoder's line: the position after the record.
fn written(rt: &impl Print, answer: Result<usize, Error>) -> io::Result<()> {
    match answer {
        Ok(next) => println!(rt; "next {next}"),
        Err(error) => refused(rt, error),
    }
}

// M1: a RESET without payload, there and back.
pub fn reset(rt: &impl Print) -> io::Result<()> {
    let mut output = [0xAAu8; 44];
    let answer = encode_outer(3, [0x11u8; 16], Epoch(7), Sequence(0), b"", &mut output, 0);
    print!(rt; "encode_outer type 3 epoch 7 sequence 0: {} ", Hex(&output))?;
    written(rt, answer)?;
    decode(rt, output)
}

// A DATA of epoch 7 and sequence 1, at a position of an output.
fn encode(rt: &impl Print, payload: &[u8], output: &mut [u8], at: usize) -> io::Result<()> {
    print!(rt;
        "encode_outer payload {} output {} at {at}: ",
        payload.len(),
        output.len()
    )?;
    let answer = encode_outer(5, [0x11u8; 16], Epoch(7), Sequence(1), payload, output, at);
    written(rt, answer)
}

// The whole output before and after a record of 47 bytes, a DATA of three.
fn shown(rt: &impl Print, output: &mut [u8], at: usize) -> io::Result<()> {
    println!(rt; "before {}", Hex(output))?;
    encode(rt, b"abc", output, at)?;
    println!(rt; "after  {}", Hex(output))
}

// In outputs of 47 bytes and of one less. Then in one of 51 bytes: within it, the last position that
// fits, one more, the end, one past the end, the largest number.
pub fn positions(rt: &impl Print) -> io::Result<()> {
    for (size, at) in [
        (47, 0),
        (46, 0),
        (51, 2),
        (51, 4),
        (51, 5),
        (51, 51),
        (51, 52),
        (51, usize::MAX),
    ] {
        let mut output = [0xAAu8; 51];
        if let Some(output) = output.get_mut(..size) {
            shown(rt, output, at)?;
        }
    }
    Ok(())
}

// A payload at position 2 of 65,584, and the first and last four bytes of the output. A payload of
// 65,536 bytes leaves two bytes after it.
fn large(rt: &impl Print, payload: &[u8]) -> io::Result<()> {
    let mut output = [0xAAu8; 65584];
    encode(rt, payload, &mut output, 2)?;
    println!(rt; "ends {} {}", Hex(&output[..4]), Hex(&output[65580..]))
}

// Payloads at the limit and above it. In the last call both 24 and 22 apply, and 24 comes first.
pub fn limits(rt: &impl Print) -> io::Result<()> {
    large(rt, &[0x55u8; 65536])?;
    large(rt, &[0x55u8; 65537])?;
    encode(rt, &[0x55u8; 65537], &mut [0xAAu8; 4], 5)
}
