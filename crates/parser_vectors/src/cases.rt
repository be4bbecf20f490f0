// The records and headers that are pushed.
use crate::streams::{in_pieces, record};
use print::Hex;
use std::io;
use wire::header::encode_header;
use wire::{Epoch, Sequence};

// A record with fields that its type may carry: those of types 1 and 2 are zero.
fn typical(rt: &impl Print, record_type: u8, payload: &[u8], n: usize) -> io::Result<()> {
    if record_type < 3 {
        record(
            rt,
            record_type,
            [0u8; 16],
            Epoch(0),
            Sequence(0),
            payload,
            n,
        )
    } else {
        record(
            rt,
            record_type,
            [0x11u8; 16],
            Epoch(7),
            Sequence(1),
            payload,
            n,
        )
    }
}

// For each type the payload lengths that it allows and their neighbours, from one to another, in pieces
// of `n`; others give 5. M4: no DATA is empty; one of 65,536 bytes and one of one more. A long payload
// comes in several pieces, then whole in one.
pub fn lengths(rt: &impl Print) -> io::Result<()> {
    let (capability, long) = ([0x33u8; 33], [0x55u8; 65537]);
    for (record_type, first, last, n) in [
        (1, 0, 1, 7),
        (2, 31, 33, 50),
        (3, 0, 1, 7),
        (4, 3, 5, 7),
        (5, 0, 0, 65581),
        (5, 1, 1, 1),
        (5, 2, 2, 45),
        (5, 65535, 65535, 4096),
        (5, 65536, 65537, 65536),
        (5, 65536, 65537, 65580),
        (6, 0, 1, 7),
        (7, 0, 1, 7),
        (8, 3, 5, 7),
        (9, 3, 5, 7),
    ] {
        let bytes: &[u8] = match record_type {
            2 => &capability,
            4 => b"\0\0\x01\0\0",
            8 | 9 => b"\x01\0\0\0\0",
            _ => &long,
        };
        for count in first..=last {
            if let Some(payload) = bytes.get(..count) {
                typical(rt, record_type, payload, n)?;
            }
        }
    }
    Ok(())
}

// M2, M3: both ends of a window's range, and the next beyond each; the same of a credit; the one
// error value, and its neighbours. Others give 8, 9 and 7. The pieces end within header and payload.
pub fn values(rt: &impl Print) -> io::Result<()> {
    for (record_type, number) in [
        (4, 65535),
        (4, 65536),
        (4, 4194314),
        (4, 4194315),
        (9, 0),
        (9, 1),
        (9, 4194314),
        (9, 4194315),
        (8, 0),
        (8, 1),
        (8, 2),
    ] {
        typical(rt, record_type, &u32::to_le_bytes(number), 23)?;
    }
    Ok(())
}

// The header of a RESET with two of its bytes given anew; byte 8, the first of the instance, stays as it
// was. Each byte of magic and version, unknown types, flags: 1, 2, 3 and 4. Where two fields are wrong
// the first counts: an unknown type before the flags, the flags before the length (5).
pub fn headers(rt: &impl Print) -> io::Result<()> {
    for (index, byte, second, other) in [
        (0, 0x4F, 8, 0x11),
        (1, 0x57, 8, 0x11),
        (2, 0x59, 8, 0x11),
        (3, 0x54, 8, 0x11),
        (4, 2, 8, 0x11),
        (5, 1, 8, 0x11),
        (6, 0, 8, 0x11),
        (6, 10, 8, 0x11),
        (6, 255, 8, 0x11),
        (7, 1, 8, 0x11),
        (7, 128, 8, 0x11),
        (3, 0x54, 4, 2),
        (4, 2, 6, 10),
        (6, 10, 7, 1),
        (7, 1, 40, 1),
        (43, 1, 8, 0x11),
    ] {
        let mut header = encode_header(3, [0x11u8; 16], Epoch(7), Sequence(0), 0);
        if let Some(place) = header.get_mut(index) {
            *place = byte;
        }
        if let Some(place) = header.get_mut(second) {
            *place = other;
        }
        in_pieces(rt, &Hex(&header), &header, 7)?;
    }
    Ok(())
}

// Bootstrap records with one field that is not zero, the last byte of the instance, the epoch, the
// sequence, which gives 6; then a RESET whose fields are all zero, which the parser accepts.
pub fn identities(rt: &impl Print) -> io::Result<()> {
    let capability = [0x33u8; 32];
    for (record_type, last, epoch, sequence) in [
        (1, 1, 0, 0),
        (1, 0, 1, 0),
        (1, 0, 0, 1),
        (2, 1, 0, 0),
        (2, 0, 1, 0),
        (2, 0, 0, 1),
        (3, 0, 0, 0),
    ] {
        let mut instance_id = [0u8; 16];
        instance_id[15] = last;
        let payload: &[u8] = match record_type {
            2 => &capability,
            _ => b"",
        };
        record(
            rt,
            record_type,
            instance_id,
            Epoch(epoch),
            Sequence(sequence),
            payload,
            80,
        )?;
    }
    Ok(())
}
