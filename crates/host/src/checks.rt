// What stops a whole record at a host (01, "receive"), in 01's order.
ghost use Rattle.std.specs.Prelude.{◌≡◌, ◌||◌, [], ◌∷◌, eqb};
ghost use Rattle.wire.specs.Refusals.{verdict, first};
ghost use Rattle.record.specs.Types.{code_of};
ghost use Rattle.session.specs.Checks.{identity_row, instance_row};
ghost use Rattle.host.specs.Checks.{allowed, stale_row, order_rows, type_rows, record_rows};

use crate::{HostSession, HostState};
use record::Record;
use record::types::RecordType;
use session::checks::{check_identity, check_instance, check_sequence};
use session::{Identity, held, is_identity, next_sequence};
use wire::Sequence;
use wire::errors::Error;

// Whether a type belongs to an attachment: Wait, Ready, Error.
fn is_attachment(kind: RecordType) -> bool
    ensures { result ≡ eqb (code_of kind) 6 || (eqb (code_of kind) 7 || eqb (code_of kind) 8) }
{
    matches!(
        kind,
        RecordType::Wait | RecordType::Ready | RecordType::Error
    )
}

// Whether a type belongs to a session: Data, Reset.
fn is_traffic(kind: RecordType) -> bool
    ensures { result ≡ eqb (code_of kind) 5 || eqb (code_of kind) 3 }
{
    matches!(kind, RecordType::Data | RecordType::Reset)
}

// Whether a type is allowed in a state.
fn is_allowed(state: HostState, kind: RecordType) -> bool
    ensures { result ≡ allowed state (code_of kind) }
{
    match state {
        HostState::Attaching => is_attachment(kind),
        HostState::Attached => is_traffic(kind),
        _ => false,
    }
}

// What stops a record by its type and sequence: 10, 15, 16.
#[tactic(auto, using(wire::proofs::Rows::numbered), unfolding(session::specs::Checks::next_sequence, wire::specs::Refusals::first))]
fn check_order(
    state: HostState,
    record_type: RecordType,
    actual: Sequence,
    due: Sequence,
) -> Result<(), Error>
    ensures { verdict result ≡ first (order_rows state (code_of record_type) actual.0 due.0) }
{
    if !is_allowed(state, record_type) {
        return Err(Error::Unexpected(record_type.code()));
    }
    check_sequence(actual, due)?;
    next_sequence(due, record_type)?;
    Ok(())
}

// What stops a record that must carry an identity: 11.
#[tactic(auto, unfolding(wire::specs::Refusals::first))]
fn check_carried(kind: RecordType, actual: Identity) -> Result<(), Error>
    ensures { verdict result ≡ first (identity_row (code_of kind) actual.instance_id actual.epoch.0 ∷ []) }
{
    if !is_identity(actual.instance_id, actual.epoch) {
        return Err(Error::MissingIdentity(kind.code()));
    }
    Ok(())
}

// What stops a RESET: 11, 12, 14.
#[tactic(auto, using(wire::proofs::Rows::numbered), unfolding(wire::specs::Refusals::first))]
fn check_reset(actual: Identity, current: Identity) -> Result<(), Error>
    ensures { verdict result ≡ first (identity_row 3 actual.instance_id actual.epoch.0 ∷ instance_row current.instance_id actual.instance_id ∷ stale_row current.epoch.0 actual.epoch.0 ∷ []) }
{
    check_carried(RecordType::Reset, actual)?;
    check_instance(actual.instance_id, current.instance_id)?;
    if actual.epoch <= current.epoch {
        return Err(Error::StaleEpoch {
            current: current.epoch.0,
            actual: actual.epoch.0,
        });
    }
    Ok(())
}

// What stops a record by its identity: Ready 11; Data 12, 13; Reset 11, 12, 14.
#[tactic(auto, unfolding(wire::specs::Refusals::first))]
fn check_type(kind: RecordType, current: Identity, record: Record) -> Result<(), Error>
    ensures { verdict result ≡ first (type_rows (code_of kind) current «record») }
{
    let actual = Identity::from(record);
    match kind {
        RecordType::Ready => check_carried(RecordType::Ready, actual),
        RecordType::Data => check_identity(actual, current),
        RecordType::Reset => check_reset(actual, current),
        _ => Ok(()),
    }
}

// What stops a whole record.
#[tactic(auto, using(wire::proofs::Rows::refuses, crate::proofs::Checking::order_told))]
pub(crate) fn check_record(session: HostSession, record: Record) -> Result<(), Error>
    ensures { verdict result ≡ first (record_rows session «record») }
{
    check_order(
        session.state,
        record.record_type,
        record.sequence,
        session.receive_sequence,
    )?;
    check_type(record.record_type, held(session.identity), record)
}
