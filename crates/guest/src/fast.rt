// A guest's `receive` (01, "receive"), by value, with a fast path for DATA that flows; `receive_any`
// of `accept` has the rest.
ghost use Rattle.std.specs.Prelude.{◌≡◌, true, ◌+◌, ◌^◌, ◌≤◌, ◌<◌, length};
ghost use Rattle.wire.specs.Header.{length_of};
ghost use Rattle.parser.specs.Push.{head_with, push_of};
ghost use Rattle.guest_core.specs.State.{active_guest};
ghost use Rattle.guest.specs.Receive.{received, receive_of};
ghost use Rattle.guest.specs.Receive as receiving;
ghost use Rattle.guest.specs.Flow.{flowing, after44, takes_data, stays, waits_at, hands_out, Fits, stepped, Stepped};

use crate::accept::{GuestEvent, data_session, receive_any, wait};
use guest_core::GuestSession;
use outer::{OUTER_HEADER_LEN, OUTER_MAX_PAYLOAD};
use parser::{Place, RecordParser};
use record::header::is_data;
use session::{After, Received, same_instance};
use wire::copying::copy_at;
use wire::fields;
use wire::parts::filled;

// Whether DATA may flow: an Active session that is sound, with no header held but one of DATA, and
// a whole stage.
#[tactic(auto, unfolding(crate::specs::Flow::flowing))]
fn flows(session: GuestSession, room: usize) -> bool
    ensures { result ≡ flowing session room }
{
    session.is_active() && session.parser.is_clear() && OUTER_MAX_PAYLOAD <= room
}

// What a piece leads to while DATA flows: the parser's counts after it, and what the receive has done.
#[derive(Clone, Copy)]
struct Step {
    header_len: usize,
    payload_len: usize,
    received: Received<GuestEvent>,
}

// No record yet.
fn waits(header_len: usize, payload_len: usize, consumed: usize) -> Step
    ensures { result ≡ waits_at header_len payload_len consumed }
{
    Step {
        header_len,
        payload_len,
        received: Received {
            consumed,
            event: None,
        },
    }
}

// DATA is handed out.
fn hands(length: usize, consumed: usize, place: Place) -> Step
    ensures { result ≡ hands_out length consumed place }
{
    Step {
        header_len: 0,
        payload_len: 0,
        received: Received {
            consumed,
            event: Some(GuestEvent::Data { place, length }),
        },
    }
}

// Whether a header is one of DATA that the session takes: 15, 12, 13, 16 and 17 pass.
#[tactic(auto, unfolding(crate::specs::Flow::takes_data, wire::specs::Refusals::first, record::specs::Record::record_with))]
fn takes(session: GuestSession, header: &[u8; 44]) -> bool
    ensures { result ≡ true → takes_data session header.now ≡ true }
{
    let Some(identity) = session.identity else {
        return false;
    };
    is_data(header)
        && fields::sequence(header) == session.receive_sequence
        && same_instance(fields::instance_id(header), identity.instance_id)
        && fields::epoch(header) == identity.epoch
        && session.receive_sequence.0 < u64::MAX
        && fields::length(header) <= session.window.saturating_sub(session.outstanding)
}

// Byte 44 of a header has come; `rest` is the piece from its index `from` on. Where the header is not
// one of DATA that the session takes nothing is done. Stage and index are the caller's (see
// `payload_step` of the parser).
#[tactic(auto, using(crate::proofs::Flowing::data_steps))]
fn data_step(
    session: GuestSession,
    header: &[u8; 44],
    rest: &[u8],
    from: usize,
    stage: &mut [u8],
) -> Option<Step>
    requires { (active_guest session ≡ true) × (session.parser.payload_len ≤ length_of header.now) × (65536 ≤ length stage.old) × (from + length rest.now < 2 ^ 64) }
    ensures { Stepped result session header.now (after44 header.now session.parser.payload_len rest.now from stage.old) stage.old stage.new }
{
    if !takes(session, header) {
        return None;
    }
    let before = session.parser.payload_len;
    let size = fields::length(header) as usize;
    let n = (size - before).min(rest.len());
    if before + n < size {
        copy_at(stage, before, &rest[0..n]);
        return Some(waits(OUTER_HEADER_LEN, before + n, from + n));
    }
    if before == 0 {
        return Some(hands(size, from + n, Place::Piece(from)));
    }
    copy_at(stage, before, &rest[0..n]);
    Some(hands(size, from + n, Place::Stage))
}

// A header with the bytes of a piece that are its own.
#[tactic(auto, using(parser::proofs::Cases::bytes_are))]
fn with_front(header: [u8; 44], had: usize, piece: &[u8]) -> [u8; 44]
    requires { had ≤ 44 }
    ensures { result ≡ head_with header had piece.now }
{
    let n = (OUTER_HEADER_LEN - had).min(piece.len());
    filled(header, had, &piece[0..n])
}

// Bytes of a header, or of DATA that the session takes. `header` has the piece's bytes that are its
// own.
#[tactic(auto, using(crate::proofs::Flowing::head_steps))]
fn head_step(
    session: GuestSession,
    header: [u8; 44],
    piece: &[u8],
    stage: &mut [u8],
) -> Option<Step>
    requires { (flowing session (length stage.old) ≡ true) × (header ≡ head_with session.parser.header session.parser.header_len piece.now) }
    ensures { Stepped result session header (push_of session.parser piece.now stage.old) stage.old stage.new }
{
    let had = session.parser.header_len;
    let n = (OUTER_HEADER_LEN - had).min(piece.len());
    if had + n < OUTER_HEADER_LEN {
        return Some(waits(had + n, 0, n));
    }
    data_step(session, &header, &piece[n..], n, stage)
}

// A receive whose step left a header.
fn step_done(
    session: GuestSession,
    header: [u8; 44],
    step: Step,
) -> After<GuestSession, Received<GuestEvent>>
    requires { Fits step session }
    ensures { received result ≡ stepped step header session }
{
    let parser = RecordParser {
        header,
        header_len: step.header_len,
        payload_len: step.payload_len,
        error: None,
    };
    let session = match step.received.event {
        Some(GuestEvent::Data { length, .. }) => data_session(session, parser, length),
        _ => GuestSession { parser, ..session },
    };
    After {
        answer: Ok(step.received),
        session,
    }
}

// A receive of payload bytes that leaves the payload unfinished. The host has its own: it has another
// session and another rule, and its test of what stops a receive stands before it.
#[tactic(auto, using(crate::proofs::Flowing::stays_low, crate::proofs::Flowing::stays_waits))]
fn keep_waiting(
    session: GuestSession,
    piece: &[u8],
    stage: &mut [u8],
) -> After<GuestSession, Received<GuestEvent>>
    requires { (flowing session (length stage.old) ≡ true) × (stays session.parser (length piece.now) ≡ true) }
    ensures { receiving.outcome (received result) stage.new ≡ receive_of session piece.now stage.old }
{
    copy_at(stage, session.parser.payload_len, piece);
    let parser = RecordParser {
        payload_len: session.parser.payload_len + piece.len(),
        error: None,
        ..session.parser
    };
    wait(session, parser, piece.len())
}

// Takes bytes of the piece up to the end of one record, and reports what the record says.
#[tactic(auto, using(crate::proofs::Flowing::flow_count, crate::proofs::Flowing::goes))]
pub fn receive(
    session: GuestSession,
    piece: &[u8],
    stage: &mut [u8],
) -> After<GuestSession, Received<GuestEvent>>
    ensures { receiving.outcome (received result) stage.new ≡ receive_of session piece.now stage.old }
{
    if flows(session, stage.len()) {
        if session.parser.stays_open(piece.len()) {
            return keep_waiting(session, piece, stage);
        }
        let header = with_front(session.parser.header, session.parser.header_len, piece);
        if let Some(step) = head_step(session, header, piece, stage) {
            return step_done(session, header, step);
        }
    }
    receive_any(session, piece, stage)
}
