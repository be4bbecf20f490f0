// Record types and error codes.
ghost use Rattle.std.specs.Prelude.{◌≡◌};
ghost use Rattle.record.specs.Types.{code_of, type_at, bootstrap, length_ok, error_of, error_at};

use outer::OUTER_MAX_PAYLOAD;

// Length of the launch capability that authenticates the host client.
pub const CAPABILITY_LEN: usize = 32;

// Type of an NVXS record, the byte at offset 6 of its header.
#[derive(Clone, Copy, Debug, PartialEq, Eq)]
pub enum RecordType {
    GuestAttach,
    HostAttach,
    Reset,
    Ack,
    Data,
    Wait,
    Ready,
    Error,
    Credit,
}

// Code of an ERROR record. Protocol version 1 defines one.
#[derive(Clone, Copy, Debug, PartialEq, Eq)]
pub enum ErrorCode {
    Authentication,
}

impl RecordType {
    // The type's code, written out as 01 has it.
    pub fn code(self) -> u8
        ensures { result ≡ code_of self }
    {
        match self {
            RecordType::GuestAttach => 1,
            RecordType::HostAttach => 2,
            RecordType::Reset => 3,
            RecordType::Ack => 4,
            RecordType::Data => 5,
            RecordType::Wait => 6,
            RecordType::Ready => 7,
            RecordType::Error => 8,
            RecordType::Credit => 9,
        }
    }

    // The type with a code.
    #[tactic(auto, unfolding(crate::specs::Types::type_at))]
    pub fn from_code(code: u8) -> Option<RecordType>
        ensures { result ≡ type_at code }
    {
        match code {
            1 => Some(RecordType::GuestAttach),
            2 => Some(RecordType::HostAttach),
            3 => Some(RecordType::Reset),
            4 => Some(RecordType::Ack),
            5 => Some(RecordType::Data),
            6 => Some(RecordType::Wait),
            7 => Some(RecordType::Ready),
            8 => Some(RecordType::Error),
            9 => Some(RecordType::Credit),
            _ => None,
        }
    }

    // Whether records of this type are bootstrap records, whose identity and sequence are zero.
    pub fn is_bootstrap(self) -> bool
        ensures { result ≡ bootstrap (code_of self) }
    {
        matches!(self, RecordType::GuestAttach | RecordType::HostAttach)
    }

    // Whether a record of this type may carry a payload of so many bytes.
    #[tactic(auto, unfolding(crate::specs::Types::length_ok))]
    pub fn allows_length(self, length: usize) -> bool
        ensures { result ≡ length_ok (code_of self) length }
    {
        match self {
            RecordType::GuestAttach | RecordType::Reset | RecordType::Wait | RecordType::Ready => {
                length == 0
            }
            RecordType::HostAttach => length == CAPABILITY_LEN,
            RecordType::Data => 1 <= length && length <= OUTER_MAX_PAYLOAD,
            RecordType::Ack | RecordType::Error | RecordType::Credit => length == 4,
        }
    }
}

impl ErrorCode {
    // The code's value, the payload of an ERROR record.
    pub fn code(self) -> u32
        ensures { result ≡ error_of self }
    {
        match self {
            ErrorCode::Authentication => 1,
        }
    }

    // The code with a value.
    #[tactic(auto, unfolding(crate::specs::Types::error_at))]
    pub fn from_code(code: u32) -> Option<ErrorCode>
        ensures { result ≡ error_at code }
    {
        match code {
            1 => Some(ErrorCode::Authentication),
            _ => None,
        }
    }
}
