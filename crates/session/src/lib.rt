// What the two ends of a session share (nvxs/mod.rs): identities and the sequence after another, the
// checks of a record's sequence and identity (`checks`), and the encoders of the next record (`next`).
#![tactic(auto)]

pub mod checks;
pub mod next;

ghost use Rattle.std.specs.Prelude.{◌≡◌};
ghost use Rattle.record.specs.Types.{code_of};
ghost use Rattle.session.specs.Checks.{identity_of, same, no_identity, identity_ok, holds, held, record_identity, following, next_sequence};
ghost use Rattle.session.specs.Answers.{after, asked};

use record::Record;
use record::checks::all_zero;
use record::types::RecordType;
use wire::errors::Error;
use wire::{Epoch, Sequence};

// Identity of one epoch of a session.
#[derive(Clone, Copy, Debug, PartialEq, Eq)]
pub struct Identity {
    pub instance_id: [u8; 16],
    pub epoch: Epoch,
}

// What a call answers, with the session after it.
#[derive(Clone, Copy, Debug, PartialEq, Eq)]
pub struct After<S, T> {
    pub answer: Result<T, Error>,
    pub session: S,
}

impl<S: Copy, T: Copy> After<S, T> {
    // What a call answers that is refused with nothing changed, or done with a session after it.
    pub fn of(before: S, done: Result<(S, T), Error>) -> After<S, T>
        ensures { result ≡ after before done }
    {
        match done {
            Ok((session, value)) => After {
                answer: Ok(value),
                session,
            },
            Err(error) => After {
                answer: Err(error),
                session: before,
            },
        }
    }

    // Stores the session where the caller keeps it, and gives the answer.
    pub fn store(self, session: &mut S) -> Result<T, Error>
        ensures { (result ≡ self.answer) × (session.new ≡ self.session) }
    {
        *session = self.session;
        self.answer
    }
}

// What a call that writes answers: the bytes of data taken by `send`, else 0, and the position
// after the record.
#[derive(Clone, Copy, Debug, PartialEq, Eq)]
pub struct Sent {
    pub count: usize,
    pub next: usize,
}

// What a receive has done: the bytes of the piece that it took, and what it reports.
#[derive(Clone, Copy, Debug, PartialEq, Eq)]
pub struct Received<E> {
    pub consumed: usize,
    pub event: Option<E>,
}

// Whether two instances are the same: `==`, under the rule's name.
#[tactic(auto, unfolding(crate::specs::Checks::same))]
pub fn same_instance(a: [u8; 16], b: [u8; 16]) -> bool
    ensures { result ≡ same a b }
{
    a == b
}

// No identity: zeros, what `held` gives where there is none.
pub fn no_identity() -> Identity
    ensures { result ≡ no_identity }
{
    Identity {
        instance_id: [0u8; 16],
        epoch: Epoch(0),
    }
}

// Whether the fields are an identity: an instance not all zero with an epoch not 0.
#[tactic(auto, unfolding(crate::specs::Checks::identity_ok))]
pub fn is_identity(instance_id: [u8; 16], epoch: Epoch) -> bool
    ensures { result ≡ identity_ok instance_id epoch.0 }
{
    !all_zero(instance_id) && epoch.0 != 0
}

// Whether an identity is held (01, 23).
#[tactic(auto, unfolding(crate::specs::Checks::holds))]
pub fn is_held(identity: Option<Identity>) -> bool
    ensures { result ≡ holds identity }
{
    identity.is_some_and(|held| is_identity(held.instance_id, held.epoch))
}

// The identity that is held, or no identity.
pub fn held(identity: Option<Identity>) -> Identity
    ensures { result ≡ held identity }
{
    identity.unwrap_or(no_identity())
}

// The identity that a record's fields make. A field that is an array is read into a variable first, as
// the check of borrows needs it.
impl From<Record> for Identity {
    ghost from_gives = { λ r i. i ≡ identity_of r };

    fn from(record: Record) -> Identity {
        let instance_id = record.instance_id;
        Identity {
            instance_id,
            epoch: record.epoch,
        }
    }
}

// The identity that a record carries.
#[tactic(auto, unfolding(crate::specs::Checks::record_identity))]
pub fn record_identity(record: Record) -> Option<Identity>
    ensures { result ≡ record_identity «record» }
{
    if is_identity(record.instance_id, record.epoch) {
        return Some(Identity::from(record));
    }
    None
}

// The sequence after another. The one after 2^64 - 1 does not exist.
#[tactic(auto, using(std::proofs::lemmas::Bool::Decides::nat_tests), unfolding(crate::specs::Checks::next_sequence))]
pub fn next_sequence(sequence: Sequence, record_type: RecordType) -> Result<Sequence, Error>
    ensures { following result ≡ next_sequence sequence.0 (code_of record_type) }
{
    sequence
        .0
        .checked_add(1)
        .map(Sequence)
        .ok_or(Error::SequenceOverflow(record_type.code()))
}

// The answer of an ask to a session: 23, or the value.
pub fn asked<T: Copy>(sound: bool, value: T) -> Result<T, Error>
    ensures { result ≡ asked sound value }
{
    if sound {
        Ok(value)
    } else {
        Err(Error::Unsound)
    }
}
