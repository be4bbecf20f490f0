// Records to the encoder.
use outer::OuterHeader;
use print::{Case, Refused};
use record::codec::encode_record;
use record::types::RecordType;
use std::io;
use wire::errors::Error;
use wire::{Epoch, Refusal, Sequence};

// The end of an encoder's line: the position after the record, or the refusal.
fn encoded(rt: &impl Print, answer: Result<usize, Error>) -> io::Result<()> {
    match answer {
        Ok(next) => println!(rt; "next {next}"),
        Err(error) => println!(rt; "{}", Refused(Refusal::from(error))),
    }
}

// A record with its fields.
pub fn encode(
    rt: &impl Print,
    record_type: RecordType,
    instance_id: [u8; 16],
    epoch: Epoch,
    sequence: Sequence,
    payload: &[u8],
) -> io::Result<()> {
    let header = OuterHeader {
        record_type: record_type.code(),
        instance_id,
        epoch,
        sequence,
        length: payload.len(),
    };
    print!(rt; "encode_record {}: ", Case { header, payload })?;
    let mut output = [0u8; 65580];
    let answer = encode_record(
        record_type,
        instance_id,
        epoch,
        sequence,
        payload,
        &mut output,
        0,
    );
    encoded(rt, answer)
}

// A record with fields that its type may carry.
pub fn typical(rt: &impl Print, record_type: RecordType, payload: &[u8]) -> io::Result<()> {
    if record_type.is_bootstrap() {
        encode(rt, record_type, [0u8; 16], Epoch(0), Sequence(0), payload)
    } else {
        encode(
            rt,
            record_type,
            [0x11u8; 16],
            Epoch(7),
            Sequence(1),
            payload,
        )
    }
}

// A CREDIT and a DATA, one behind the other in one output.
pub fn two(rt: &impl Print) -> io::Result<()> {
    let mut output = [0u8; 95];
    let instance_id = [0x22u8; 16];
    for (record_type, sequence, payload, at) in [
        (RecordType::Credit, 2, b"\x03\0\0\0" as &[u8], 0),
        (RecordType::Data, 3, b"abc", 48),
    ] {
        let sequence = Sequence(sequence);
        let answer = encode_record(
            record_type,
            instance_id,
            Epoch(7),
            sequence,
            payload,
            &mut output,
            at,
        );
        encoded(rt, answer)?;
    }
    Ok(())
}
