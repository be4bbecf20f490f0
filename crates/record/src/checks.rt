// The checks on a record's fields: its length (5), a bootstrap record's zeros (6), and the value in
// its payload (8, 9, 7).
#![tactic(auto, unfolding(wire::specs::Refusals::first))]

ghost use Rattle.std.specs.Prelude.{◌≡◌, ◌&&◌, [], ◌∷◌, eqb};
ghost use Rattle.wire.specs.Refusals.{refusal, checked, first};
ghost use Rattle.outer.specs.Outer.{window_ok, credit_ok};
ghost use Rattle.record.specs.Types.{code_of};
ghost use Rattle.record.specs.Record.{all_zero, length_row, bootstrap_row, payload_checks};

use crate::types::{ErrorCode, RecordType};
use outer::payloads::{credit_ok, value, window_ok};
use wire::errors::RecordError;
use wire::{Epoch, Sequence};

// Whether the 16 bytes are all zero.
#[tactic(auto, using(crate::proofs::Cases::zeros))]
pub fn all_zero(bytes: [u8; 16]) -> bool
    ensures { result ≡ all_zero bytes }
{
    bytes == [0u8; 16]
}

// Checks that a type allows a payload of so many bytes.
pub(crate) fn check_length(record_type: RecordType, length: usize) -> Result<(), RecordError>
    ensures { checked result ≡ first (length_row (code_of record_type) length ∷ []) }
{
    if !record_type.allows_length(length) {
        return Err(RecordError::Length {
            record_type: record_type.code(),
            length,
        });
    }
    Ok(())
}

// Checks that a bootstrap record carries a zero instance, epoch and sequence.
pub(crate) fn check_bootstrap(
    record_type: RecordType,
    instance_id: [u8; 16],
    epoch: Epoch,
    sequence: Sequence,
) -> Result<(), RecordError>
    ensures { checked result ≡ first (bootstrap_row (code_of record_type) instance_id epoch.0 sequence.0 ∷ []) }
{
    if record_type.is_bootstrap() && !zero_identity(instance_id, epoch, sequence) {
        return Err(RecordError::BootstrapIdentity(record_type.code()));
    }
    Ok(())
}

// Whether instance, epoch and sequence are all zero.
fn zero_identity(instance_id: [u8; 16], epoch: Epoch, sequence: Sequence) -> bool
    ensures { result ≡ all_zero instance_id && (eqb epoch.0 0 && eqb sequence.0 0) }
{
    all_zero(instance_id) && epoch.0 == 0 && sequence.0 == 0
}

// The checks of the three values are alike, each with its own test and its own error: a shared body would
// take the test's answer and the error, which is no plainer.

// Checks a window.
fn check_window(window: u32) -> Result<(), RecordError>
    ensures { checked result ≡ first ((window_ok window, refusal 8 window 0 0) ∷ []) }
{
    if !window_ok(window) {
        return Err(RecordError::ReceiveWindow(window));
    }
    Ok(())
}

// Checks a credit.
fn check_credit(bytes: u32) -> Result<(), RecordError>
    ensures { checked result ≡ first ((credit_ok bytes, refusal 9 bytes 0 0) ∷ []) }
{
    if !credit_ok(bytes) {
        return Err(RecordError::Credit(bytes));
    }
    Ok(())
}

// Checks an error value.
#[tactic(auto, unfolding(wire::specs::Refusals::first, crate::specs::Types::error_at))]
fn check_error(code: u32) -> Result<(), RecordError>
    ensures { checked result ≡ first ((eqb code 1, refusal 7 code 0 0) ∷ []) }
{
    let Some(_) = ErrorCode::from_code(code) else {
        return Err(RecordError::ErrorCode(code));
    };
    Ok(())
}

// Checks the value of an ACK, CREDIT or ERROR payload.
#[tactic(auto, using(crate::proofs::TypesCases::other_code), unfolding(wire::specs::Refusals::first, crate::specs::Record::payload_checks))]
pub fn check_payload(record_type: RecordType, payload: &[u8]) -> Result<(), RecordError>
    ensures { checked result ≡ payload_checks (code_of record_type) payload.now }
{
    match record_type {
        RecordType::Ack => check_window(value(payload)),
        RecordType::Error => check_error(value(payload)),
        RecordType::Credit => check_credit(value(payload)),
        _ => Ok(()),
    }
}
