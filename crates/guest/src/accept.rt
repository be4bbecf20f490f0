// What a guest's session makes of a push (01, "receive"), by value: `receive_any` is any receive, on
// which the fast path falls back.
ghost use Rattle.std.specs.Prelude.{◌≡◌, ◌+◌, ◌^◌, ◌<◌, ℕ, Some, None};
ghost use Rattle.wire.specs.Refusals.{refusal_of};
ghost use Rattle.parser.specs.Push.{progressed};
ghost use Rattle.parser.specs.Push as pushing;
ghost use Rattle.session.specs.Checks.{last_sequence};
ghost use Rattle.guest_core.specs.State.{with_state, reset_session, data_guest};
ghost use Rattle.guest_core.specs.declared.GuestState.TheVariants as State;
ghost use Rattle.guest.specs.Receive.{told, refused, reported, accepted, received, accept, accept_reset, accept_data, after_push, receive_of};
ghost use Rattle.guest.specs.Receive as receiving;

use crate::checks::{check_data, check_reset};
use guest_core::{GuestSession, GuestState};
use parser::push::push;
use parser::{Complete, Place, Pushed, RecordParser};
use record::types::RecordType;
use session::checks::ready;
use session::{After, Identity, Received};
use wire::Sequence;
use wire::errors::Error;

// What a receive reports. The bytes of data are had by `payload`.
#[derive(Clone, Copy, Debug, PartialEq, Eq)]
pub enum GuestEvent {
    Reset(Identity),
    Data { place: Place, length: usize },
}

// The session after a RESET. That the sequence has a next one is a condition, here and for DATA: any
// session value may come (01), and 16 is tested before.
fn reset_session(parser: RecordParser, identity: Identity, sequence: Sequence) -> GuestSession
    requires { sequence.0 < last_sequence }
    ensures { result ≡ reset_session parser identity sequence.0 }
{
    GuestSession {
        parser,
        identity: Some(identity),
        receive_sequence: Sequence(sequence.0 + 1),
        send_sequence: Sequence(0),
        window: 0,
        outstanding: 0,
        state: GuestState::Resetting,
    }
}

// The session after DATA of so many bytes.
pub(crate) fn data_session(
    session: GuestSession,
    parser: RecordParser,
    length: usize,
) -> GuestSession
    requires { (session.receive_sequence.0 < last_sequence) × (session.outstanding + length < 2 ^ 32) }
    ensures { result ≡ data_guest session parser length }
{
    GuestSession {
        parser,
        receive_sequence: Sequence(session.receive_sequence.0 + 1),
        outstanding: session.outstanding + length as u32,
        ..session
    }
}

// A RESET: the session starts a new epoch.
#[tactic(auto, unfolding(crate::specs::Receive::accept_reset, wire::specs::Refusals::first))]
fn accept_reset(
    session: GuestSession,
    parser: RecordParser,
    complete: Complete,
) -> Result<(GuestSession, GuestEvent), Error>
    ensures { (n : ℕ) → accepted session parser n result ≡ (accept_reset session (told (progressed (Some complete) n parser))).answer }
{
    let record = complete.record;
    check_reset(session.identity, record)?;
    let identity = Identity::from(record);
    let session = reset_session(parser, identity, record.sequence);
    Ok((session, GuestEvent::Reset(identity)))
}

// DATA: its bytes are handed out.
#[tactic(auto, unfolding(crate::specs::Receive::accept_data, wire::specs::Refusals::first))]
fn accept_data(
    session: GuestSession,
    parser: RecordParser,
    complete: Complete,
) -> Result<(GuestSession, GuestEvent), Error>
    ensures { (n : ℕ) → accepted session parser n result ≡ (accept_data session (told (progressed (Some complete) n parser))).answer }
{
    check_data(session, complete.record)?;
    let length = complete.record.length;
    let session = data_session(session, parser, length);
    let place = complete.place;
    Ok((session, GuestEvent::Data { place, length }))
}

// A whole record: a RESET, DATA when Active, or 10.
#[tactic(auto, unfolding(crate::specs::Receive::accept, wire::specs::Refusals::first))]
fn accept_record(
    session: GuestSession,
    parser: RecordParser,
    complete: Complete,
) -> Result<(GuestSession, GuestEvent), Error>
    ensures { (n : ℕ) → accepted session parser n result ≡ (accept session (told (progressed (Some complete) n parser))).answer }
{
    let kind = complete.record.record_type;
    if kind == RecordType::Reset {
        return accept_reset(session, parser, complete);
    }
    if kind == RecordType::Data && session.state == GuestState::Active {
        return accept_data(session, parser, complete);
    }
    Err(Error::Unexpected(kind.code()))
}

// A receive that leaves Failed. The host has this, `wait` and `after_push` too: each end builds its own
// session and event under its own rule. One function for both would need a trait that builds a session
// from parser and state, with both ends' rules for each function: no plainer than the two. With
// `After::of` here and in `receive_any`, as in `wait`, a receive took one to seven instructions more.
fn fail(
    session: GuestSession,
    parser: RecordParser,
    error: Error,
) -> After<GuestSession, Received<GuestEvent>>
    ensures { received result ≡ refused (refusal_of error) (with_state session State.Failed parser) }
{
    After {
        answer: Err(error),
        session: GuestSession {
            parser,
            state: GuestState::Failed,
            ..session
        },
    }
}

// A receive of so many bytes that completes no record.
pub(crate) fn wait(
    session: GuestSession,
    parser: RecordParser,
    consumed: usize,
) -> After<GuestSession, Received<GuestEvent>>
    ensures { received result ≡ reported None consumed (with_state session session.state parser) }
{
    let received = Received {
        consumed,
        event: None,
    };
    After::of(session, Ok((GuestSession { parser, ..session }, received)))
}

// After the push: its refusal, no record yet, or a whole record.
#[tactic(auto, unfolding(crate::specs::Receive::after_push))]
fn after_push(session: GuestSession, pushed: Pushed) -> After<GuestSession, Received<GuestEvent>>
    ensures { received result ≡ (after_push session (told (pushing.pushed pushed))).answer }
{
    let parser = pushed.parser;
    let progress = match pushed.answer {
        Ok(progress) => progress,
        Err(error) => return fail(session, parser, error),
    };
    let consumed = progress.consumed;
    let Some(complete) = progress.complete else {
        return wait(session, parser, consumed);
    };
    match accept_record(session, parser, complete) {
        Ok((session, event)) => After {
            answer: Ok(Received {
                consumed,
                event: Some(event),
            }),
            session,
        },
        Err(error) => fail(session, parser, error),
    }
}

// Any receive: what stops it, then the push and what it says.
#[tactic(auto, using(crate::proofs::Receiving::answer_told), unfolding(crate::specs::Receive::receive_of, crate::specs::Receive::receive, crate::specs::Receive::receive_stage, parser::specs::Push::push_of))]
pub(crate) fn receive_any(
    session: GuestSession,
    piece: &[u8],
    stage: &mut [u8],
) -> After<GuestSession, Received<GuestEvent>>
    ensures { receiving.outcome (received result) stage.new ≡ receive_of session piece.now stage.old }
{
    match ready(session.is_sound(), stage.len(), session.state.is_open()) {
        Ok(()) => after_push(session, push(session.parser, piece, stage)),
        Err(error) => After {
            answer: Err(error),
            session,
        },
    }
}
