// How a guest attaches, acknowledges a reset and ends (01, "Guest"), by value: each call takes the
// session and answers with the session after it.
ghost use Rattle.std.specs.Prelude.{◌≡◌, [], replicate};
ghost use Rattle.wire.specs.Bytes.{to_le};
ghost use Rattle.wire.specs.Refusals.{first};
ghost use Rattle.outer.specs.Outer as outer;
ghost use Rattle.record.specs.Record.{record_bytes};
ghost use Rattle.session.specs.Checks.{held};
ghost use Rattle.session.specs.Writes.{identity_bytes};
ghost use Rattle.guest_core.specs.State.{ack_guest};
ghost use Rattle.guest_core.specs.Writes.{outcome, sent};
ghost use Rattle.guest_core.specs.Calls.{closed};
ghost use Rattle.guest_core.specs.Calls as calls;

use crate::{GuestSession, GuestState};
use record::codec::encode_record;
use record::types::RecordType;
use session::checks::stopped;
use session::next::encode_bootstrap;
use session::{After, Sent, held};
use wire::Sequence;
use wire::errors::Error;

// Writes GUEST_ATTACH, in Detached only. The host has this too: each names its own session, state and
// record, and what is alike is `stopped` and `encode_bootstrap`.
#[tactic(auto, using(wire::proofs::Rows::numbered), unfolding(record::specs::Record::encode_record, record::specs::Record::all_zero, record::specs::Types::length_ok, outer::specs::Outer::write, wire::specs::Refusals::first))]
fn write_attach(session: GuestSession, output: &mut [u8], at: usize) -> Result<usize, Error>
    ensures { outer.outcome (outer.written result) output.new ≡ outer.write (first (calls.attach_rows session output.old at)) (record_bytes 1 (replicate 16 0) 0 0 []) output.old at }
{
    stopped(session.is_sound(), session.state == GuestState::Detached)?;
    encode_bootstrap(RecordType::GuestAttach, &[], output, at)
}

// Writes ACK with sequence 0, in Resetting only.
#[tactic(auto, using(wire::proofs::Rows::numbered, crate::proofs::Calling::ack_told, wire::proofs::NumberLaws::written), unfolding(outer::specs::Outer::write, wire::specs::Refusals::first))]
fn write_ack(
    session: GuestSession,
    window: u32,
    output: &mut [u8],
    at: usize,
) -> Result<usize, Error>
    ensures { outer.outcome (outer.written result) output.new ≡ outer.write (first (calls.ack_rows session window output.old at)) (identity_bytes 4 (held session.identity) 0 (to_le 4 window)) output.old at }
{
    stopped(session.is_sound(), session.state == GuestState::Resetting)?;
    let identity = held(session.identity);
    encode_record(
        RecordType::Ack,
        identity.instance_id,
        identity.epoch,
        Sequence(0),
        &window.to_le_bytes(),
        output,
        at,
    )
}

// The session after an acknowledge.
fn acknowledged(mut session: GuestSession, window: u32) -> GuestSession
    ensures { result ≡ ack_guest session window }
{
    session.send_sequence = Sequence(1);
    session.window = window;
    session.outstanding = 0;
    session.state = GuestState::Active;
    session
}

// Writes the record with which the guest attaches. The host has this too: each builds its own session and
// names its own state, which a trait would have to do for both: no plainer.
#[tactic(auto, using(wire::proofs::Rows::numbered), unfolding(crate::specs::Calls::attach, crate::specs::Writes::writes, outer::specs::Outer::write))]
pub fn attach(session: GuestSession, output: &mut [u8], at: usize) -> After<GuestSession, Sent>
    ensures { outcome (sent result) output.new ≡ calls.attach session output.old at }
{
    let written = write_attach(session, output, at);
    let attached = written.map(|next| {
        let session = GuestSession {
            state: GuestState::Attaching,
            ..session
        };
        (session, Sent { count: 0, next })
    });
    After::of(session, attached)
}

// Writes the acknowledgement of a reset with the window, and becomes Active.
#[tactic(auto, using(wire::proofs::Rows::numbered), unfolding(crate::specs::Calls::acknowledge, crate::specs::Writes::writes, outer::specs::Outer::write))]
pub fn acknowledge(
    session: GuestSession,
    window: u32,
    output: &mut [u8],
    at: usize,
) -> After<GuestSession, Sent>
    ensures { outcome (sent result) output.new ≡ calls.acknowledge session window output.old at }
{
    let written = write_ack(session, window, output, at);
    let active = written.map(|next| (acknowledged(session, window), Sent { count: 0, next }));
    After::of(session, active)
}

// Ends the session at the end of the stream. The host has this too: each builds its own session and names
// its own states, which a trait would have to do for both: no plainer.
#[tactic(auto, using(std::proofs::lemmas::Bool::Decides::nat_tests, crate::proofs::Soundness::sound_inside), unfolding(crate::specs::Calls::disconnect, wire::specs::Refusals::first))]
pub fn disconnect(session: GuestSession) -> After<GuestSession, ()>
    ensures { closed result ≡ calls.disconnect session }
{
    if !session.is_sound() {
        return After::of(session, Err(Error::Unsound));
    }
    if session.state.is_ended() {
        return After::of(session, Ok((session, ())));
    }
    let answer = session.parser.ended();
    let state = match answer {
        Ok(()) => GuestState::Closed,
        Err(_) => GuestState::Failed,
    };
    After {
        answer,
        session: GuestSession { state, ..session },
    }
}
