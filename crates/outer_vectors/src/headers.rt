// decode_outer_header: the fields it reads, and refusals 25 and 26.
use crate::refused;
use outer::decode_outer_header;
use print::{Fields, Hex};
use std::io;
use wire::header::encode_header;
use wire::{Epoch, Sequence};

// One header's bytes, and its fields or the refusal.
pub fn decode(rt: &impl Print, header: [u8; 44]) -> io::Result<()> {
    print!(rt; "decode_outer_header {}: ", Hex(&header))?;
    match decode_outer_header(header) {
        Ok(fields) => println!(rt; "{}", Fields(fields)),
        Err(error) => refused(rt, error),
    }
}

// Bytes that all differ, and the largest numbers; then types that no record has: any type byte passes.
pub fn values(rt: &impl Print) -> io::Result<()> {
    let instance = [
        0xA0u8, 0xA1, 0xA2, 0xA3, 0xA4, 0xA5, 0xA6, 0xA7, 0xA8, 0xA9, 0xAA, 0xAB, 0xAC, 0xAD, 0xAE,
        0xAF,
    ];
    for (record_type, instance, epoch, sequence, length) in [
        (4, instance, 0x0807060504030201, 0x1817161514131211, 4),
        (9, instance, u64::MAX, u64::MAX - 1, 4),
        (0, [0x11u8; 16], 7, 1, 3),
        (255, [0x11u8; 16], 7, 1, 3),
    ] {
        let (epoch, sequence) = (Epoch(epoch), Sequence(sequence));
        decode(
            rt,
            encode_header(record_type, instance, epoch, sequence, length),
        )?;
    }
    Ok(())
}

// Each byte of magic, version and flags of a DATA; the last of these has a length above the limit too.
// Then lengths at the limit and above it, with the type's byte left as it is.
pub fn wrong(rt: &impl Print) -> io::Result<()> {
    for (index, byte, length) in [
        (0, 0x4F, 3),
        (1, 0x57, 3),
        (2, 0x59, 3),
        (3, 0x54, 3),
        (4, 2, 3),
        (5, 1, 3),
        (7, 1, 3),
        (7, 1, 65537),
        (6, 5, 65536),
        (6, 5, 65537),
        (6, 5, u32::MAX),
    ] {
        let mut header = encode_header(5, [0x11u8; 16], Epoch(7), Sequence(1), length);
        if let Some(place) = header.get_mut(index) {
            *place = byte;
        }
        decode(rt, header)?;
    }
    Ok(())
}
