// The host's receive (01, "receive"): it takes the session and answers with the session after it.
ghost use Rattle.std.specs.Prelude.{◌≡◌, ◌<◌, ◌+◌, ◌^◌, ℕ, Some, None};
ghost use Rattle.wire.specs.Refusals.{refusal_of};
ghost use Rattle.parser.specs.Push.{waiting, progressed};
ghost use Rattle.parser.specs.Push as pushing;
ghost use Rattle.session.specs.Checks.{last_sequence};
ghost use Rattle.host.specs.State.{with_state, next_host};
ghost use Rattle.host.specs.declared.HostState.TheVariants as State;
ghost use Rattle.host.specs.Receive.{told, refused, reported, accepted, received, effect, accept, after_push, outcome, receive_of};

use crate::checks::check_record;
use crate::{HostSession, HostState};
use outer::OUTER_HEADER_LEN;
use parser::push::push;
use parser::{Complete, Place, Pushed, RecordParser};
use record::types::RecordType;
use session::checks::ready;
use session::{After, Identity, Received};
use wire::Sequence;
use wire::copying::copy_at;
use wire::errors::Error;

// What a receive reports. The bytes of data are had by `payload`. A rejection carries the one error
// code there is.
#[derive(Clone, Copy, Debug, PartialEq, Eq)]
pub enum HostEvent {
    Wait,
    Attached(Identity),
    Rejected,
    Data { place: Place, length: usize },
    Reset(Identity),
}

// The session after a record: the state and the identity that it leads to. That the sequence has a next
// one is a condition: any session value may come (01), and 16 is tested before.
fn next_session(
    session: HostSession,
    state: HostState,
    parser: RecordParser,
    identity: Option<Identity>,
) -> HostSession
    requires { session.receive_sequence.0 < last_sequence }
    ensures { result ≡ next_host session state parser identity }
{
    HostSession {
        parser,
        identity,
        receive_sequence: Sequence(session.receive_sequence.0 + 1),
        state,
        ..session
    }
}

// What a record does that nothing stops, by its type. WAIT and DATA keep the state, READY sets the
// identity, and of a RESET the identity is reported and not kept. A type that no state allows has been
// stopped before; the rule has 10 for it here too. That the sequence has a next one is a condition: any
// session value may come (01), and 16 is tested before.
#[tactic(auto, using(crate::proofs::Receiving::effect_other), unfolding(crate::specs::Receive::effect))]
fn effect(
    session: HostSession,
    parser: RecordParser,
    complete: Complete,
) -> Result<(HostSession, HostEvent), Error>
    requires { session.receive_sequence.0 < last_sequence }
    ensures { (n : ℕ) → accepted session parser n result ≡ (effect complete.«record».record_type session (told (progressed (Some complete) n parser))).answer }
{
    let held = session.identity;
    let carried = Identity::from(complete.record);
    let (state, identity, event) = match complete.record.record_type {
        RecordType::Wait => (session.state, held, HostEvent::Wait),
        RecordType::Ready => (
            HostState::Attached,
            Some(carried),
            HostEvent::Attached(carried),
        ),
        RecordType::Error => (HostState::Rejected, held, HostEvent::Rejected),
        RecordType::Data => {
            let place = complete.place;
            let length = complete.record.length;
            (session.state, held, HostEvent::Data { place, length })
        }
        RecordType::Reset => (HostState::Reset, held, HostEvent::Reset(carried)),
        kind => return Err(Error::Unexpected(kind.code())),
    };
    Ok((next_session(session, state, parser, identity), event))
}

// A whole record: what stops it, or what it does.
#[tactic(auto, using(wire::proofs::Rows::refuses, std::proofs::lemmas::Bool::Decides::nat_tests), unfolding(crate::specs::Receive::accept, wire::specs::Refusals::first))]
fn accept_record(
    session: HostSession,
    parser: RecordParser,
    complete: Complete,
) -> Result<(HostSession, HostEvent), Error>
    ensures { (n : ℕ) → accepted session parser n result ≡ (accept session (told (progressed (Some complete) n parser))).answer }
{
    check_record(session, complete.record)?;
    effect(session, parser, complete)
}

// A receive that leaves Failed. The guest has this, `wait` and `after_push` too: each end builds its own
// session and event under its own rule (crates/guest/src/accept.rt says why there are two).
fn fail(
    session: HostSession,
    parser: RecordParser,
    error: Error,
) -> After<HostSession, Received<HostEvent>>
    ensures { received result ≡ refused (refusal_of error) (with_state session State.Failed parser) }
{
    After {
        answer: Err(error),
        session: HostSession {
            parser,
            state: HostState::Failed,
            ..session
        },
    }
}

// A receive of so many bytes that completes no record. The guest has this too (see `fail`).
fn wait(
    session: HostSession,
    parser: RecordParser,
    consumed: usize,
) -> After<HostSession, Received<HostEvent>>
    ensures { received result ≡ reported None consumed (with_state session session.state parser) }
{
    let received = Received {
        consumed,
        event: None,
    };
    After::of(session, Ok((HostSession { parser, ..session }, received)))
}

// After the push: its refusal, no record yet, or a whole record. The guest has this too (see `fail`).
#[tactic(auto, using(wire::proofs::Rows::refuses), unfolding(crate::specs::Receive::after_push))]
fn after_push(session: HostSession, pushed: Pushed) -> After<HostSession, Received<HostEvent>>
    ensures { received result ≡ (after_push session (told (pushing.pushed pushed))).answer }
{
    let parser = pushed.parser;
    let progress = match pushed.answer {
        Ok(progress) => progress,
        Err(error) => return fail(session, parser, error),
    };
    let consumed = progress.consumed;
    let Some(complete) = progress.complete else {
        return wait(session, parser, consumed);
    };
    match accept_record(session, parser, complete) {
        Ok((session, event)) => After {
            answer: Ok(Received {
                consumed,
                event: Some(event),
            }),
            session,
        },
        Err(error) => fail(session, parser, error),
    }
}

// A receive of so many payload bytes that leaves the payload unfinished: the commonest case, apart
// from the others so that it moves little.
#[tactic(auto, unfolding(crate::specs::Receive::after_push))]
fn keep_waiting(session: HostSession, count: usize) -> After<HostSession, Received<HostEvent>>
    requires { session.parser.payload_len + count < 2 ^ 32 }
    ensures { received result ≡ (after_push session (told (waiting session.parser.header 44 (session.parser.payload_len + count) count))).answer }
{
    let parser = RecordParser {
        header_len: OUTER_HEADER_LEN,
        payload_len: session.parser.payload_len + count,
        error: None,
        ..session.parser
    };
    wait(session, parser, count)
}

// Takes bytes of the piece up to the end of one record, and reports what the record says.
#[tactic(auto, using(crate::proofs::Receiving::stops, crate::proofs::Receiving::goes, crate::proofs::Receiving::waits, crate::proofs::Receiving::stays_low))]
pub fn receive(
    session: HostSession,
    piece: &[u8],
    stage: &mut [u8],
) -> After<HostSession, Received<HostEvent>>
    ensures { outcome (received result) stage.new ≡ receive_of session piece.now stage.old }
{
    if let Err(error) = ready(session.is_sound(), stage.len(), session.state.is_open()) {
        return After::of(session, Err(error));
    }
    if session.parser.stays_open(piece.len()) {
        copy_at(stage, session.parser.payload_len, piece);
        return keep_waiting(session, piece.len());
    }
    after_push(session, push(session.parser, piece, stage))
}
