// What a push answered, at the end of a line.
use outer::OuterHeader;
use parser::{Complete, Progress, Pushed, RecordParser, payload};
use print::{Fields, Hex, Refused};
use record::Record;
use std::io;
use wire::Refusal;

// The bytes that a push took.
pub fn consumed(pushed: Pushed) -> usize {
    match pushed.answer {
        Ok(progress) => progress.consumed,
        Err(_) => 0,
    }
}

// The number in a record's payload, with its name.
fn number(record: Record, payload: &[u8]) -> Option<(&'static str, u32)> {
    if let Some(window) = record.window(payload) {
        Some(("window", window))
    } else if let Some(credit) = record.credit(payload) {
        Some(("credit", credit))
    } else if let Some(error) = record.error_code(payload) {
        Some(("error", error.code()))
    } else {
        None
    }
}

// A complete record: its fields, the number in its payload, and the payload's first four bytes.
fn complete(rt: &impl Print, record: Record, payload: &[u8]) -> io::Result<()> {
    let instance_id = record.instance_id;
    let header = OuterHeader {
        record_type: record.record_type.code(),
        instance_id,
        epoch: record.epoch,
        sequence: record.sequence,
        length: record.length,
    };
    print!(rt; "{}", Fields(header))?;
    if let Some((name, value)) = number(record, payload) {
        print!(rt; " {name} {value}")?;
    }
    if payload.is_empty() {
        return Ok(());
    }
    print!(rt; " payload {}", Hex(payload.get(..4).unwrap_or(payload)))
}

// How many bytes a parser still needs, and how many it holds.
fn counts(rt: &impl Print, parser: RecordParser) -> io::Result<()> {
    let needed = parser.needed().unwrap_or(0);
    let buffered = parser.buffered().unwrap_or(0);
    println!(rt; " needed {needed} buffered {buffered}")
}

// What a push answered.
pub fn answer(rt: &impl Print, pushed: Pushed, piece: &[u8], stage: &[u8]) -> io::Result<()> {
    match pushed.answer {
        Ok(
            Progress {
                complete: Some(Complete { record, place }),
                ..
            },
        ) => {
            complete(rt, record, payload(piece, stage, place, record.length))?;
        }
        Ok(_) => print!(rt; "no record")?,
        Err(error) => print!(rt; "{}", Refused(Refusal::from(error)))?,
    }
    counts(rt, pushed.parser)
}
