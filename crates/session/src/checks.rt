// The checks that both ends share (nvxs/mod.rs): on the state that a call needs, and on a record's
// sequence and identity.
#![tactic(auto, unfolding(wire::specs::Refusals::first))]

ghost use Rattle.std.specs.Prelude.{◌≡◌, [], ◌∷◌, leb};
ghost use Rattle.wire.specs.Refusals.{verdict, first, refusal};
ghost use Rattle.outer.specs.Outer.{max_payload};
ghost use Rattle.session.specs.Checks.{sequence_row, instance_row, epoch_row};

use crate::{Identity, same_instance};
use outer::OUTER_MAX_PAYLOAD;
use wire::Sequence;
use wire::errors::Error;

// What stops a call that works in one state: 23 unsound, 20 another state. It is given what the
// session answers and not the session, which would be copied once more.
pub fn stopped(sound: bool, in_state: bool) -> Result<(), Error>
    ensures { verdict result ≡ first ((sound, refusal 23 0 0 0) ∷ (in_state, refusal 20 0 0 0) ∷ []) }
{
    if !sound {
        return Err(Error::Unsound);
    }
    if !in_state {
        return Err(Error::InvalidState);
    }
    Ok(())
}

// What stops a receive: 23 unsound, 21 a stage without room for the longest payload, 20 a state in
// which nothing is received.
#[tactic(auto, using(std::proofs::lemmas::Bool::Decides::nat_tests), unfolding(wire::specs::Refusals::first))]
pub fn ready(sound: bool, room: usize, in_state: bool) -> Result<(), Error>
    ensures { verdict result ≡ first ((sound, refusal 23 0 0 0) ∷ (leb max_payload room, refusal 21 0 0 0) ∷ (in_state, refusal 20 0 0 0) ∷ []) }
{
    if sound && room < OUTER_MAX_PAYLOAD {
        return Err(Error::ShortStage);
    }
    stopped(sound, in_state)
}

// Checks a record's sequence.
pub fn check_sequence(actual: Sequence, expected: Sequence) -> Result<(), Error>
    ensures { verdict result ≡ first (sequence_row expected.0 actual.0 ∷ []) }
{
    if actual != expected {
        return Err(Error::Sequence {
            expected: expected.0,
            actual: actual.0,
        });
    }
    Ok(())
}

// Checks a record's instance.
pub fn check_instance(actual: [u8; 16], expected: [u8; 16]) -> Result<(), Error>
    ensures { verdict result ≡ first (instance_row expected actual ∷ []) }
{
    if !same_instance(actual, expected) {
        return Err(Error::Instance { expected, actual });
    }
    Ok(())
}

// Checks a record's identity: its instance, then its epoch.
#[tactic(auto, using(wire::proofs::Rows::numbered), unfolding(wire::specs::Refusals::first))]
pub fn check_identity(actual: Identity, expected: Identity) -> Result<(), Error>
    ensures { verdict result ≡ first (instance_row expected.instance_id actual.instance_id ∷ epoch_row expected.epoch.0 actual.epoch.0 ∷ []) }
{
    check_instance(actual.instance_id, expected.instance_id)?;
    if actual.epoch != expected.epoch {
        return Err(Error::Epoch {
            expected: expected.epoch.0,
            actual: actual.epoch.0,
        });
    }
    Ok(())
}
