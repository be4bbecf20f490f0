// A record read from its header, and the encoder.
ghost use Rattle.std.specs.Prelude.{◌≡◌};
ghost use Rattle.wire.specs.Refusals.{checked, first};
ghost use Rattle.outer.specs.Outer.{written, outcome};
ghost use Rattle.record.specs.Types.{code_of};
ghost use Rattle.record.specs.Record.{record_rows, record_with, record_of, encode_record};

use crate::Record;
use crate::checks::{check_bootstrap, check_length, check_payload};
use crate::types::RecordType;
use outer::put_record;
use wire::errors::{Error, RecordError};
use wire::header::encode_header;
use wire::{Epoch, Sequence, fields};

// The fields of a header of a given type.
#[tactic(auto, unfolding(crate::specs::Record::record_with))]
fn record_with(header: &[u8; 44], record_type: RecordType) -> Record
    ensures { result ≡ record_with record_type header.now }
{
    Record {
        record_type,
        instance_id: fields::instance_id(header),
        epoch: fields::epoch(header),
        sequence: fields::sequence(header),
        length: fields::length(header) as usize,
    }
}

// The fields of a header's bytes. It stays out of line, so that its callers move a header as one block.
#[inline(never)]
pub fn record_of(header: &[u8; 44]) -> Record
    ensures { result ≡ record_of header.now }
{
    let known = RecordType::from_code(fields::record_type(header));
    record_with(header, known.unwrap_or(RecordType::GuestAttach))
}

// The checks that the encoder makes before 22: 5, 6, then 8, 9, 7.
#[tactic(auto, using(wire::proofs::Rows::record_refuses), unfolding(wire::specs::Refusals::first, crate::specs::Record::payload_checks))]
fn check_record(
    record_type: RecordType,
    instance_id: [u8; 16],
    epoch: Epoch,
    sequence: Sequence,
    payload: &[u8],
) -> Result<(), RecordError>
    ensures { checked result ≡ first (record_rows (code_of record_type) instance_id epoch.0 sequence.0 payload.now) }
{
    check_length(record_type, payload.len())?;
    check_bootstrap(record_type, instance_id, epoch, sequence)?;
    check_payload(record_type, payload)
}

// Validates one record, writes it at a position of the output, and gives the position after it.
#[tactic(auto, using(std::proofs::lemmas::Bool::Decides::nat_tests, std::proofs::lemmas::Grind::common_steps, wire::proofs::Rows::record_refuses, crate::proofs::Cases::then_room, crate::proofs::Cases::length_fits, wire::proofs::Headers::header_length), unfolding(crate::specs::Record::encode_record, outer::specs::Outer::put_record, outer::specs::Outer::write))]
pub fn encode_record(
    record_type: RecordType,
    instance_id: [u8; 16],
    epoch: Epoch,
    sequence: Sequence,
    payload: &[u8],
    output: &mut [u8],
    at: usize,
) -> Result<usize, Error>
    ensures { outcome (written result) output.new ≡ encode_record (code_of record_type) instance_id epoch.0 sequence.0 payload.now output.old at }
{
    check_record(record_type, instance_id, epoch, sequence, payload)?;
    let code = record_type.code();
    let length = payload.len() as u32;
    let header = encode_header(code, instance_id, epoch, sequence, length);
    put_record(header, payload, output, at)
}
