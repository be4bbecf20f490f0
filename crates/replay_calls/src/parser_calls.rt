// The calls of a bare parser: operations 30 to 32.
use parser::{Complete, Progress, RecordParser, payload, push};
use record::types::ErrorCode;
use replay::answer::{Answer, Part, State};
use replay::frames::{Frame, PARSER_STAGE};
use replay::operations::ParserCall;
use session::Identity;
use wire::errors::Error;

// What a push did, with the record that it completed.
fn progressed(progress: Progress, piece: &[u8], stage: &[u8]) -> Answer {
    let count = progress.consumed as u64;
    let Some(Complete { record, place }) = progress.complete else {
        return Answer {
            count,
            ..Answer::default()
        };
    };
    let bytes = payload(piece, stage, place, record.length);
    Answer {
        event: 8,
        place: Some(place),
        count,
        next: record.sequence.0,
        identity: Some(Identity::from(record)),
        window: record.window(bytes),
        credit: record.credit(bytes),
        error_code: record.error_code(bytes).map(ErrorCode::code),
        record_type: record.record_type.code(),
        payload: Part::Payload {
            place,
            stage: PARSER_STAGE,
            length: record.length,
        },
        ..Answer::default()
    }
}

fn push(parser: &mut RecordParser, f: Frame<'_>, memory: &mut [u8]) -> Answer {
    let stage = f.stage(memory, PARSER_STAGE);
    let pushed = push::push(*parser, f.input, stage);
    *parser = pushed.parser;
    match pushed.answer {
        Ok(progress) => progressed(progress, f.input, stage),
        Err(error) => Answer::from(error),
    }
}

// buffered and needed.
fn asks(parser: RecordParser) -> Result<Answer, Error> {
    Ok(Answer {
        count: parser.buffered()? as u64,
        next: parser.needed()? as u64,
        ..Answer::default()
    })
}

// Runs a call. Its answer shows the parser.
pub(crate) fn turn(
    parser: &mut RecordParser,
    call: ParserCall,
    f: Frame<'_>,
    memory: &mut [u8],
) -> Answer {
    let answer = match call {
        ParserCall::Push => push(parser, f, memory),
        ParserCall::New => {
            *parser = RecordParser::new();
            Answer::default()
        }
        ParserCall::Asks => Answer::from(asks(*parser)),
    };
    Answer {
        state: State::Parser(*parser),
        ..answer
    }
}
