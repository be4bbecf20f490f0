// The records that are encoded.
use crate::records::{encode, typical};
use record::types::RecordType;
use std::io;
use wire::{Epoch, Sequence};

// For each type the payload lengths that it allows and their neighbours, from one to another; others give
// 5. M4: no DATA is empty; one of 65,536 bytes and one of one more.
pub fn lengths(rt: &impl Print) -> io::Result<()> {
    let (capability, long) = ([0x33u8; 33], [0x55u8; 65537]);
    for (record_type, first, last) in [
        (RecordType::GuestAttach, 0, 1),
        (RecordType::HostAttach, 31, 33),
        (RecordType::Reset, 0, 1),
        (RecordType::Ack, 3, 5),
        (RecordType::Data, 0, 2),
        (RecordType::Data, 65535, 65537),
        (RecordType::Wait, 0, 1),
        (RecordType::Ready, 0, 1),
        (RecordType::Error, 3, 5),
        (RecordType::Credit, 3, 5),
    ] {
        let bytes: &[u8] = match record_type {
            RecordType::HostAttach => &capability,
            RecordType::Ack => b"\0\0\x01\0\0",
            RecordType::Error | RecordType::Credit => b"\x01\0\0\0\0",
            _ => &long,
        };
        for count in first..=last {
            if let Some(payload) = bytes.get(..count) {
                typical(rt, record_type, payload)?;
            }
        }
    }
    Ok(())
}

// M2, M3: both ends of a window's range, and the next beyond each; the same of a credit; the one
// error value, and its neighbours. Others give 8, 9 and 7.
pub fn values(rt: &impl Print) -> io::Result<()> {
    for (record_type, number) in [
        (RecordType::Ack, 65535),
        (RecordType::Ack, 65536),
        (RecordType::Ack, 4194314),
        (RecordType::Ack, 4194315),
        (RecordType::Credit, 0),
        (RecordType::Credit, 1),
        (RecordType::Credit, 4194314),
        (RecordType::Credit, 4194315),
        (RecordType::Error, 0),
        (RecordType::Error, 1),
        (RecordType::Error, 2),
    ] {
        typical(rt, record_type, &u32::to_le_bytes(number))?;
    }
    Ok(())
}

// Bootstrap records with one field that is not zero, the last byte of the instance, the epoch, the
// sequence, which gives 6; then a RESET whose fields are all zero, which the record layer accepts.
pub fn identities(rt: &impl Print) -> io::Result<()> {
    let capability = [0x33u8; 32];
    for (record_type, last, epoch, sequence) in [
        (RecordType::GuestAttach, 1, 0, 0),
        (RecordType::GuestAttach, 0, 1, 0),
        (RecordType::GuestAttach, 0, 0, 1),
        (RecordType::HostAttach, 1, 0, 0),
        (RecordType::HostAttach, 0, 1, 0),
        (RecordType::HostAttach, 0, 0, 1),
        (RecordType::Reset, 0, 0, 0),
    ] {
        let mut instance_id = [0u8; 16];
        instance_id[15] = last;
        let payload: &[u8] = match record_type {
            RecordType::HostAttach => &capability,
            _ => b"",
        };
        encode(
            rt,
            record_type,
            instance_id,
            Epoch(epoch),
            Sequence(sequence),
            payload,
        )?;
    }
    Ok(())
}
