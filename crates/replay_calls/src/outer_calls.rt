// The calls of the plain layer: operations 41 to 46.
use outer::decode_outer_header;
use replay::answer::Answer;
use replay::frames::Frame;
use session::Identity;
use wire::errors::Error;

// encode_outer; none of an input that is too short.
pub(crate) fn encode_outer(f: Frame<'_>, output: &mut [u8]) -> Option<Result<usize, Error>> {
    let x = f.fields()?;
    Some(outer::encode_outer(
        x.record_type,
        x.instance_id,
        x.epoch,
        x.sequence,
        x.payload,
        output,
        f.at(),
    ))
}

// decode_outer_header; none of an input that has not 44 bytes.
pub(crate) fn decode_header(input: &[u8]) -> Option<Answer> {
    let bytes = <[u8; 44]>::try_from(input).ok()?;
    Some(match decode_outer_header(bytes) {
        Ok(header) => Answer {
            count: header.length as u64,
            next: header.sequence.0,
            identity: Some(Identity {
                instance_id: header.instance_id,
                epoch: header.epoch,
            }),
            record_type: header.record_type,
            ..Answer::default()
        },
        Err(error) => Answer::from(error),
    })
}

// The answer of an encoder of four bytes: they are in place of the window.
pub(crate) fn encoded(payload: Result<[u8; 4], Error>) -> Answer {
    match payload {
        Ok(bytes) => Answer {
            window: Some(u32::from_le_bytes(bytes)),
            ..Answer::default()
        },
        Err(error) => Answer::from(error),
    }
}

// The answer of a decoder of four bytes.
pub(crate) fn decoded(payload: Result<u32, Error>) -> Answer {
    match payload {
        Ok(value) => Answer {
            count: value.into(),
            ..Answer::default()
        },
        Err(error) => Answer::from(error),
    }
}
