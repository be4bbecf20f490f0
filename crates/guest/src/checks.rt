// What stops a whole record at a guest (01, "receive"): a RESET, and DATA.
#![tactic(auto, unfolding(wire::specs::Refusals::first, session::specs::Checks::record_identity, session::specs::Checks::next_sequence))]

ghost use Rattle.std.specs.Prelude.{◌≡◌, [], ◌∷◌};
ghost use Rattle.wire.specs.Refusals.{verdict, first};
ghost use Rattle.session.specs.Checks.{next_row};
ghost use Rattle.guest.specs.Checks.{reset_rows, window_row, data_rows};

use guest_core::GuestSession;
use record::Record;
use record::types::RecordType;
use session::checks::{check_identity, check_sequence};
use session::{Identity, held, next_sequence, record_identity, same_instance};
use wire::Sequence;
use wire::errors::Error;

// What stops a RESET: 11, 14 (an epoch that does not advance the one held of the same instance), 16.
pub(crate) fn check_reset(current: Option<Identity>, record: Record) -> Result<(), Error>
    ensures { verdict result ≡ first (reset_rows current «record») }
{
    let Some(carried) = record_identity(record) else {
        return Err(Error::MissingIdentity(RecordType::Reset.code()));
    };
    if let Some(held) = current {
        if same_instance(carried.instance_id, held.instance_id) && carried.epoch <= held.epoch {
            return Err(Error::StaleEpoch {
                current: held.epoch.0,
                actual: carried.epoch.0,
            });
        }
    }
    next_sequence(record.sequence, RecordType::Reset)?;
    Ok(())
}

// What stops DATA of the right sequence and identity: 16, 17.
fn check_room(due: Sequence, window: u32, outstanding: u32, length: usize) -> Result<(), Error>
    ensures { verdict result ≡ first (next_row 5 due.0 ∷ window_row window outstanding length ∷ []) }
{
    next_sequence(due, RecordType::Data)?;
    if (window.saturating_sub(outstanding) as usize) < length {
        return Err(Error::Window {
            window,
            outstanding,
            length,
        });
    }
    Ok(())
}

// What stops DATA: 15, 12, 13, 16, 17.
pub(crate) fn check_data(session: GuestSession, record: Record) -> Result<(), Error>
    ensures { verdict result ≡ first (data_rows session «record») }
{
    check_sequence(record.sequence, session.receive_sequence)?;
    check_identity(Identity::from(record), held(session.identity))?;
    check_room(
        session.receive_sequence,
        session.window,
        session.outstanding,
        record.length,
    )
}
