// The calls of the record encoder, and what types and error codes answer: operations 40, 47, 48.
use record::codec;
use record::types::{ErrorCode, RecordType};
use replay::answer::Answer;
use replay::frames::Frame;
use wire::errors::Error;

// encode_record; none of an input that is too short, or of an unknown type.
pub(crate) fn encode_record(f: Frame<'_>, output: &mut [u8]) -> Option<Result<usize, Error>> {
    let x = f.fields()?;
    Some(codec::encode_record(
        RecordType::from_code(x.record_type)?,
        x.instance_id,
        x.epoch,
        x.sequence,
        x.payload,
        output,
        f.at(),
    ))
}

// What a type's code stands for, whether it is a bootstrap type and allows the length.
pub(crate) fn type_asks(code: u8, length: usize) -> Option<Answer> {
    let record_type = RecordType::from_code(code)?;
    Some(Answer {
        event: 1,
        count: u64::from(record_type.is_bootstrap()),
        next: u64::from(record_type.allows_length(length)),
        record_type: record_type.code(),
        ..Answer::default()
    })
}

// What an error code stands for.
pub(crate) fn error_asks(code: u32) -> Answer {
    Answer {
        error_code: ErrorCode::from_code(code).map(ErrorCode::code),
        ..Answer::default()
    }
}
