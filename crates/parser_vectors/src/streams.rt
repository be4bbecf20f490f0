// Bytes to a new parser, in pieces.
use crate::answers::{answer, consumed};
use outer::{OuterHeader, put_record};
use parser::push::push;
use parser::{Progress, RecordParser};
use print::Case;
use std::{fmt, io};
use wire::header::encode_header;
use wire::{Epoch, Sequence};

// Pieces of `n` bytes until a record is complete or refused, on a line that begins with what they are.
pub fn in_pieces(
    rt: &impl Print,
    what: &impl fmt::Display,
    bytes: &[u8],
    n: usize,
) -> io::Result<()> {
    print!(rt; "push {what} in pieces of {n}: ")?;
    let mut stage = [0xAAu8; 65536];
    let mut parser = RecordParser::new();
    let mut taken: usize = 0;
    for piece in bytes.chunks(n.max(1)) {
        let pushed = push(parser, piece, &mut stage);
        parser = pushed.parser;
        taken = taken.saturating_add(consumed(pushed));
        let Ok(Progress { complete: None, .. }) = pushed.answer else {
            print!(rt; "taken {taken} ")?;
            return answer(rt, pushed, piece, &stage);
        };
    }
    println!(rt; "no record")
}

// A record put together unchecked, in pieces of `n` bytes.
pub fn record(
    rt: &impl Print,
    record_type: u8,
    instance_id: [u8; 16],
    epoch: Epoch,
    sequence: Sequence,
    payload: &[u8],
    n: usize,
) -> io::Result<()> {
    let length = payload.len();
    let header = OuterHeader {
        record_type,
        instance_id,
        epoch,
        sequence,
        length,
    };
    let what = Case { header, payload };
    let length = u32::try_from(length).unwrap_or(u32::MAX);
    let header = encode_header(record_type, instance_id, epoch, sequence, length);
    let mut output = [0u8; 65581];
    let end = put_record(header, payload, &mut output, 0).unwrap_or(0);
    in_pieces(rt, &what, output.get(..end).unwrap_or(&output), n)
}

// Pieces, a line for each.
fn push_each(rt: &impl Print, pieces: &[&[u8]]) -> io::Result<()> {
    let mut stage = [0xAAu8; 65536];
    let mut parser = RecordParser::new();
    for piece in pieces {
        let pushed = push(parser, piece, &mut stage);
        parser = pushed.parser;
        print!(rt; "push {} bytes: taken {} ", piece.len(), consumed(pushed))?;
        answer(rt, pushed, piece, &stage)?;
    }
    Ok(())
}

// M5: 43 bytes FF are taken, and one more gives 1, which later pushes give again.
pub fn all_ones(rt: &impl Print) -> io::Result<()> {
    let ones = [0xFFu8; 43];
    push_each(rt, &[&ones, b"\xFF", b"", &ones])
}

// A CREDIT and a DATA one behind the other: a push takes one record and no byte of the next.
pub fn two_records(rt: &impl Print) -> io::Result<()> {
    let mut bytes = [0u8; 95];
    let instance_id = [0x22u8; 16];
    let credit = encode_header(9, instance_id, Epoch(7), Sequence(2), 4);
    let data = encode_header(5, instance_id, Epoch(7), Sequence(3), 3);
    let next = put_record(credit, b"\x03\0\0\0", &mut bytes, 0).unwrap_or(0);
    let _end = put_record(data, b"abc", &mut bytes, next);
    push_each(rt, &[&bytes, &bytes[48..93], &bytes[93..]])
}
