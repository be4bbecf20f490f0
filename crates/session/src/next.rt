// The encoders of the next record of a direction, which the two ends of a session share (nvxs/mod.rs).
ghost use Rattle.std.specs.Prelude.{◌≡◌, replicate};
ghost use Rattle.outer.specs.Outer as outer;
ghost use Rattle.record.specs.Types.{code_of};
ghost use Rattle.record.specs.Record as rule;
ghost use Rattle.session.specs.Writes.{outcome, encoded, encode_next, encode_data};

use crate::{Identity, Sent, next_sequence};
use outer::OUTER_MAX_PAYLOAD;
use record::codec::encode_record;
use record::types::RecordType;
use wire::errors::Error;
use wire::{Epoch, Sequence};

// The answer of the call, and the sequence that is next.
#[derive(Clone, Copy, Debug, PartialEq, Eq)]
pub struct Encoded {
    pub sent: Sent,
    pub sequence: Sequence,
}

// Encodes the next record of a direction, of which `count` bytes of data are told.
#[tactic(auto, using(wire::proofs::Rows::numbered), unfolding(crate::specs::Checks::next_sequence, crate::specs::Writes::encode_next, record::specs::Record::encode_record, outer::specs::Outer::write, wire::specs::Refusals::first))]
fn encode_counted(
    record_type: RecordType,
    identity: Identity,
    sequence: Sequence,
    count: usize,
    payload: &[u8],
    output: &mut [u8],
    at: usize,
) -> Result<Encoded, Error>
    ensures { outcome (encoded sequence.0 result) output.new ≡ encode_next (code_of record_type) identity sequence.0 count payload.now output.old at }
{
    let following = next_sequence(sequence, record_type)?;
    let next = encode_record(
        record_type,
        identity.instance_id,
        identity.epoch,
        sequence,
        payload,
        output,
        at,
    )?;
    Ok(Encoded {
        sent: Sent { count, next },
        sequence: following,
    })
}

// Encodes the next record of a direction.
pub fn encode_next(
    record_type: RecordType,
    identity: Identity,
    sequence: Sequence,
    payload: &[u8],
    output: &mut [u8],
    at: usize,
) -> Result<Encoded, Error>
    ensures { outcome (encoded sequence.0 result) output.new ≡ encode_next (code_of record_type) identity sequence.0 0 payload.now output.old at }
{
    encode_counted(record_type, identity, sequence, 0, payload, output, at)
}

// Encodes a DATA record of at most the first 65,536 bytes, and says how many it took.
pub fn encode_data(
    identity: Identity,
    sequence: Sequence,
    bytes: &[u8],
    output: &mut [u8],
    at: usize,
) -> Result<Encoded, Error>
    ensures { outcome (encoded sequence.0 result) output.new ≡ encode_data identity sequence.0 bytes.now output.old at }
{
    let taken = bytes.len().min(OUTER_MAX_PAYLOAD);
    encode_counted(
        RecordType::Data,
        identity,
        sequence,
        taken,
        &bytes[..taken],
        output,
        at,
    )
}

// Encodes a record with which an end attaches: it has no identity yet, and sequence 0.
pub fn encode_bootstrap(
    record_type: RecordType,
    payload: &[u8],
    output: &mut [u8],
    at: usize,
) -> Result<usize, Error>
    ensures { outer.outcome (outer.written result) output.new ≡ rule.encode_record (code_of record_type) (replicate 16 0) 0 0 payload.now output.old at }
{
    encode_record(
        record_type,
        [0u8; 16],
        Epoch(0),
        Sequence(0),
        payload,
        output,
        at,
    )
}
