// The calls that have no session and no parser: operations 40 to 48 and 60.
use crate::ends;
use crate::outer_calls::{decode_header, decoded, encode_outer, encoded};
use crate::record_calls::{encode_record, error_asks, type_asks};
use outer::payloads;
use replay::answer::{Answer, Part};
use replay::frames::{AREA, Frame, MEMORY};
use replay::operations::PlainCall;
use session::Sent;
use wire::errors::Error;

// The answer of an encoder.
fn wrote(written: Result<usize, Error>, at: usize) -> Answer {
    ends::wrote(written.map(|next| Sent { count: 0, next }), at)
}

// A part of the memory, as the answer's payload.
fn show(from: u64, count: u64) -> Option<Answer> {
    let to = from.checked_add(count)?;
    if (AREA as u64) < count || (MEMORY as u64) < to {
        return None;
    }
    Some(Answer {
        payload: Part::Memory {
            from: from as usize,
            length: count as usize,
        },
        ..Answer::default()
    })
}

// Runs a call; none where its input has no answer.
pub(crate) fn call(operation: PlainCall, f: Frame<'_>, memory: &mut [u8]) -> Option<Answer> {
    match operation {
        PlainCall::EncodeRecord => Some(wrote(encode_record(f, f.output(memory))?, f.at())),
        PlainCall::EncodeOuter => Some(wrote(encode_outer(f, f.output(memory))?, f.at())),
        PlainCall::DecodeHeader => decode_header(f.input),
        PlainCall::EncodeAck => Some(encoded(payloads::encode_ack_payload(f.value()))),
        PlainCall::DecodeAck => Some(decoded(payloads::decode_ack_payload(f.input))),
        PlainCall::EncodeCredit => Some(encoded(payloads::encode_credit_payload(f.value()))),
        PlainCall::DecodeCredit => Some(decoded(payloads::decode_credit_payload(f.input))),
        PlainCall::TypeAsks => type_asks((f.a & 0xff) as u8, f.b as usize),
        PlainCall::ErrorAsks => Some(error_asks(f.value())),
        PlainCall::Show => show(f.a, f.b),
    }
}
