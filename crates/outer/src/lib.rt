// Outer records (magic `NVXS`), the plain layer: the port of outer.rs. A record is a 44-byte
// header and a payload; `payloads` has the ack and credit pairs.
#![tactic(auto)]

pub mod payloads;

ghost use Rattle.std.specs.Prelude.{◌≡◌};
ghost use Rattle.outer.specs.Outer.{written, outcome, put_record, encode_outer, outer_ok, header_of, decoded_header, decode_outer_header};

use wire::copying::copy_at;
use wire::errors::Error;
use wire::header::{OUTER_MAGIC, OUTER_VERSION, encode_header};
use wire::{Epoch, Sequence, fields};

// Length of an outer record header.
pub const OUTER_HEADER_LEN: usize = 44;
// Largest payload of one outer record.
pub const OUTER_MAX_PAYLOAD: usize = 65536;

// Decoded outer record header. The Rust has both: this one with the type's byte, and `record`'s Record,
// of the same fields, with a RecordType.
#[derive(Clone, Copy, Debug, PartialEq, Eq)]
pub struct OuterHeader {
    pub record_type: u8,
    pub instance_id: [u8; 16],
    pub epoch: Epoch,
    pub sequence: Sequence,
    pub length: usize,
}

// Writes a record at a position of the output, or nothing where it does not fit (22), and gives the
// position after it.
#[tactic(auto, using(std::proofs::lemmas::Bool::Decides::nat_tests, std::proofs::lemmas::Grind::common_steps, wire::proofs::Overlays::copied_fits, wire::proofs::Overlays::length_overlay, wire::proofs::Overlays::overlay_next), unfolding(wire::specs::Refusals::first, crate::specs::Outer::put_record, crate::specs::Outer::write))]
pub fn put_record(
    header: [u8; 44],
    payload: &[u8],
    output: &mut [u8],
    at: usize,
) -> Result<usize, Error>
    ensures { outcome (written result) output.new ≡ put_record header payload.now output.old at }
{
    let room = output.len().saturating_sub(at);
    if room < OUTER_HEADER_LEN || room - OUTER_HEADER_LEN < payload.len() {
        return Err(Error::ShortOutput);
    }
    copy_at(output, at, &header);
    copy_at(output, at + OUTER_HEADER_LEN, payload);
    Ok(at + OUTER_HEADER_LEN + payload.len())
}

// Encodes one outer record at a position of the output.
#[tactic(auto, using(std::proofs::lemmas::Bool::Decides::nat_tests, std::proofs::lemmas::Grind::common_steps, wire::proofs::Headers::header_length), unfolding(wire::specs::Refusals::first, crate::specs::Outer::put_record, crate::specs::Outer::encode_outer, crate::specs::Outer::write))]
pub fn encode_outer(
    record_type: u8,
    instance_id: [u8; 16],
    epoch: Epoch,
    sequence: Sequence,
    payload: &[u8],
    output: &mut [u8],
    at: usize,
) -> Result<usize, Error>
    ensures { outcome (written result) output.new ≡ encode_outer record_type instance_id epoch.0 sequence.0 payload.now output.old at }
{
    let count = payload.len();
    if OUTER_MAX_PAYLOAD < count {
        return Err(Error::OuterPayload);
    }
    let header = encode_header(record_type, instance_id, epoch, sequence, count as u32);
    put_record(header, payload, output, at)
}

// Whether the header is one of this version: its magic, version and flags.
#[tactic(auto, using(wire::proofs::Headers::magic_read), unfolding(crate::specs::Outer::outer_ok))]
pub fn is_outer(header: &[u8; 44]) -> bool
    ensures { result ≡ outer_ok header.now }
{
    fields::magic(header) == u32::from_le_bytes(OUTER_MAGIC)
        && fields::version(header) == OUTER_VERSION
        && fields::flags(header) == 0
}

// The fields of a header's bytes.
#[tactic(auto, unfolding(crate::specs::Outer::header_of))]
fn header_of(header: &[u8; 44]) -> OuterHeader
    ensures { result ≡ header_of header.now }
{
    OuterHeader {
        record_type: fields::record_type(header),
        instance_id: fields::instance_id(header),
        epoch: fields::epoch(header),
        sequence: fields::sequence(header),
        length: fields::length(header) as usize,
    }
}

// Decodes and validates an outer record header.
#[tactic(auto, using(std::proofs::lemmas::Bool::Decides::nat_tests), unfolding(wire::specs::Refusals::first, crate::specs::Outer::decode_outer_header, crate::specs::Outer::header_of))]
pub fn decode_outer_header(header: [u8; 44]) -> Result<OuterHeader, Error>
    ensures { decoded_header result ≡ decode_outer_header header }
{
    if !is_outer(&header) {
        return Err(Error::OuterHeader);
    }
    let decoded = header_of(&header);
    if OUTER_MAX_PAYLOAD < decoded.length {
        return Err(Error::OuterLength);
    }
    Ok(decoded)
}
