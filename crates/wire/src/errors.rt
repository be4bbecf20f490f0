// What stops an operation (01, "What stops each operation"), by the Rust's names where it has one, and
// 01's record of each. Five variants carry a record's type, and by its code: this crate lies below
// `record`, where RecordType is.
ghost use Rattle.std.specs.Prelude.{◌≡◌};
ghost use Rattle.wire.specs.Refusals.{record_refusal, refusal_of};
ghost use Rattle.wire.specs.declared.errors.Error.TheVariants.{Record};

use crate::Refusal;

// What is wrong with a record: 1 to 9, which a parser latches.
#[derive(Clone, Copy, Debug, PartialEq, Eq)]
pub enum RecordError {
    Magic(u32),
    Version(u16),
    Type(u8),
    Flags(u8),
    Length { record_type: u8, length: usize },
    BootstrapIdentity(u8),
    ErrorCode(u32),
    ReceiveWindow(u32),
    Credit(u32),
}

// Why an operation did not do what was asked.
#[derive(Clone, Copy, Debug, PartialEq, Eq)]
pub enum Error {
    Record(RecordError),
    Unexpected(u8),
    MissingIdentity(u8),
    Instance {
        expected: [u8; 16],
        actual: [u8; 16],
    },
    Epoch {
        expected: u64,
        actual: u64,
    },
    StaleEpoch {
        current: u64,
        actual: u64,
    },
    Sequence {
        expected: u64,
        actual: u64,
    },
    SequenceOverflow(u8),
    Window {
        window: u32,
        outstanding: u32,
        length: usize,
    },
    Uncovered {
        outstanding: u32,
        bytes: u32,
    },
    Truncated {
        buffered: usize,
    },
    InvalidState,
    ShortStage,
    ShortOutput,
    Unsound,
    OuterPayload,
    OuterHeader,
    OuterLength,
    AckPayload,
    CreditPayload,
    PayloadLength,
}

impl From<RecordError> for Error {
    ghost from_gives = { λ e r. r ≡ Record e };

    fn from(error: RecordError) -> Error {
        Error::Record(error)
    }
}

impl From<RecordError> for Refusal {
    ghost from_gives = { λ e r. r ≡ record_refusal e };

    fn from(error: RecordError) -> Refusal {
        match error {
            RecordError::Magic(magic) => Refusal::new(1, magic.into(), 0, 0),
            RecordError::Version(version) => Refusal::new(2, version.into(), 0, 0),
            RecordError::Type(code) => Refusal::new(3, code.into(), 0, 0),
            RecordError::Flags(flags) => Refusal::new(4, flags.into(), 0, 0),
            RecordError::Length {
                record_type,
                length,
            } => { Refusal::new(5, record_type.into(), length as u64, 0) }
            RecordError::BootstrapIdentity(code) => Refusal::new(6, code.into(), 0, 0),
            RecordError::ErrorCode(value) => Refusal::new(7, value.into(), 0, 0),
            RecordError::ReceiveWindow(window) => Refusal::new(8, window.into(), 0, 0),
            RecordError::Credit(bytes) => Refusal::new(9, bytes.into(), 0, 0),
        }
    }
}

impl From<Error> for Refusal {
    ghost from_gives = { λ e r. r ≡ refusal_of e };

    fn from(error: Error) -> Refusal {
        match error {
            Error::Record(error) => Refusal::from(error),
            Error::Unexpected(code) => Refusal::new(10, code.into(), 0, 0),
            Error::MissingIdentity(code) => Refusal::new(11, code.into(), 0, 0),
            Error::Instance { expected, actual } => Refusal {
                expected,
                actual,
                ..Refusal::new(12, 0, 0, 0)
            },
            Error::Epoch { expected, actual } => Refusal::new(13, expected, actual, 0),
            Error::StaleEpoch { current, actual } => Refusal::new(14, current, actual, 0),
            Error::Sequence { expected, actual } => Refusal::new(15, expected, actual, 0),
            Error::SequenceOverflow(code) => Refusal::new(16, code.into(), 0, 0),
            Error::Window {
                window,
                outstanding,
                length,
            } => Refusal::new(17, window.into(), outstanding.into(), length as u64),
            Error::Uncovered { outstanding, bytes } => {
                Refusal::new(18, outstanding.into(), bytes.into(), 0)
            }
            Error::Truncated { buffered } => Refusal::new(19, buffered as u64, 0, 0),
            Error::InvalidState => Refusal::new(20, 0, 0, 0),
            Error::ShortStage => Refusal::new(21, 0, 0, 0),
            Error::ShortOutput => Refusal::new(22, 0, 0, 0),
            Error::Unsound => Refusal::new(23, 0, 0, 0),
            Error::OuterPayload => Refusal::new(24, 0, 0, 0),
            Error::OuterHeader => Refusal::new(25, 0, 0, 0),
            Error::OuterLength => Refusal::new(26, 0, 0, 0),
            Error::AckPayload => Refusal::new(27, 0, 0, 0),
            Error::CreditPayload => Refusal::new(28, 0, 0, 0),
            Error::PayloadLength => Refusal::new(29, 0, 0, 0),
        }
    }
}
