// Records (the first half of nvxs/record.rs): what a header says as a value, and what a record
// answers when asked. `types` has the record types and error codes, `checks` and `header` the checks
// of a record's fields and of its header, `codec` the header read and the encoder.
#![tactic(auto)]

pub mod checks;
pub mod codec;
pub mod header;
pub mod types;

ghost use Rattle.std.specs.Prelude.{◌≡◌};
ghost use Rattle.record.specs.Types.{code_of};
ghost use Rattle.record.specs.Record.{no_record, value_in, window_in, credit_in, error_in};

use crate::types::{ErrorCode, RecordType};
use outer::payloads::{number, value};
use wire::{Epoch, Sequence};

// A record that was decoded and validated, without its payload. The Rust has both: this one, and `outer`'s
// OuterHeader, of the same fields, with the type's byte.
#[derive(Clone, Copy, Debug, PartialEq, Eq)]
pub struct Record {
    pub record_type: RecordType,
    pub instance_id: [u8; 16],
    pub epoch: Epoch,
    pub sequence: Sequence,
    pub length: usize,
}

// No record: the first type and zeros. No code calls it, since an Option says it there: it is the rules'
// value where there is no record, and its clause shows that a Record can have it.
pub fn no_record() -> Record
    ensures { result ≡ no_record }
{
    Record {
        record_type: RecordType::GuestAttach,
        instance_id: [0u8; 16],
        epoch: Epoch(0),
        sequence: Sequence(0),
        length: 0,
    }
}

impl Record {
    // The number that a record of one type carries, none for another type.
    #[tactic(auto, using(crate::proofs::TypesCases::other_code), unfolding(crate::specs::Record::value_in))]
    fn value_in(self, wanted: RecordType, payload: &[u8]) -> Option<u32>
        ensures { result ≡ value_in (code_of wanted) (code_of self.record_type) payload.now }
    {
        if self.record_type == wanted {
            number(payload)
        } else {
            None
        }
    }

    // The window of an ACK record, none for another type.
    pub fn window(self, payload: &[u8]) -> Option<u32>
        ensures { result ≡ window_in (code_of self.record_type) payload.now }
    {
        self.value_in(RecordType::Ack, payload)
    }

    // The number of bytes that a CREDIT record returns, none for another type.
    pub fn credit(self, payload: &[u8]) -> Option<u32>
        ensures { result ≡ credit_in (code_of self.record_type) payload.now }
    {
        self.value_in(RecordType::Credit, payload)
    }

    // The code of an ERROR record, none for another type.
    #[tactic(auto, using(crate::proofs::TypesCases::other_code), unfolding(crate::specs::Record::error_in))]
    pub fn error_code(self, payload: &[u8]) -> Option<ErrorCode>
        ensures { result ≡ error_in (code_of self.record_type) payload.now }
    {
        match self.record_type {
            RecordType::Error => ErrorCode::from_code(value(payload)),
            _ => None,
        }
    }
}
