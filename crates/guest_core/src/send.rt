// What an Active guest writes (01, "Guest"): DATA and CREDIT, by value. Each call takes the session
// and answers with the session after it.
ghost use Rattle.std.specs.Prelude.{◌≡◌, [], ◌∷◌, ◌&&◌, leb};
ghost use Rattle.wire.specs.Refusals.{verdict, first, refusal};
ghost use Rattle.session.specs.Writes as writing;
ghost use Rattle.guest_core.specs.Writes.{outcome, sent};
ghost use Rattle.guest_core.specs.Send.{encoding, crediting};
ghost use Rattle.guest_core.specs.Send as calls;

use crate::{GuestSession, GuestState};
use record::types::RecordType;
use session::checks::stopped;
use session::next::{Encoded, encode_data, encode_next};
use session::{After, Sent, held};
use wire::errors::Error;

// Any send: 23, 20, then the DATA record. The host has this too (`encode_sent`): each names its own session
// and state, and what is alike is `stopped` and `encode_data`.
#[tactic(auto, using(wire::proofs::Rows::numbered), unfolding(crate::specs::Send::encoding, wire::specs::Refusals::first))]
fn encode_any(
    session: GuestSession,
    bytes: &[u8],
    output: &mut [u8],
    at: usize,
) -> Result<Encoded, Error>
    ensures { writing.outcome (writing.encoded session.send_sequence.0 result) output.new ≡ encoding session bytes.now output.old at }
{
    stopped(session.is_sound(), session.state == GuestState::Active)?;
    encode_data(
        held(session.identity),
        session.send_sequence,
        bytes,
        output,
        at,
    )
}

// The DATA record of a send. A session that is plainly sound and Active is not moved for the test.
#[tactic(auto, using(std::proofs::lemmas::Bool::Decides::nat_tests), unfolding(crate::specs::Send::encoding, crate::specs::State::active_guest, crate::specs::State::sound_guest, parser::specs::Push::clear, wire::specs::Refusals::first))]
fn encode_sent(
    session: GuestSession,
    bytes: &[u8],
    output: &mut [u8],
    at: usize,
) -> Result<Encoded, Error>
    ensures { writing.outcome (writing.encoded session.send_sequence.0 result) output.new ≡ encoding session bytes.now output.old at }
{
    if let Some(identity) = session.identity {
        if session.is_active() && session.parser.is_clear() {
            return encode_data(identity, session.send_sequence, bytes, output, at);
        }
    }
    // A copy for the rest, so that the session stays where it is (docs/SPEED.md).
    let whole = session;
    encode_any(whole, bytes, output, at)
}

// Writes a DATA record of at most the first 65,536 bytes, and says how many it took. Of the session
// only the sequence changes, and a refusal leaves that too. The host has this too: each changes its own
// session under its own rule, which a trait would have to do for both: no plainer.
#[tactic(auto, using(wire::proofs::Rows::refuses, crate::proofs::Sending::by_encoding))]
pub fn send(
    mut session: GuestSession,
    bytes: &[u8],
    output: &mut [u8],
    at: usize,
) -> After<GuestSession, Sent>
    ensures { outcome (sent result) output.new ≡ calls.send session bytes.now output.old at }
{
    let encoded = encode_sent(session, bytes, output, at);
    if let Ok(encoded) = encoded {
        session.send_sequence = encoded.sequence;
    }
    let answer = encoded.map(|encoded| encoded.sent);
    After { answer, session }
}

// Checks that a credit is at least 1 and at most what is outstanding.
#[tactic(auto, using(std::proofs::lemmas::Bool::Decides::nat_tests), unfolding(wire::specs::Refusals::first))]
fn check_covered(bytes: u32, outstanding: u32) -> Result<(), Error>
    ensures { verdict result ≡ first ((leb 1 bytes && leb bytes outstanding, refusal 18 outstanding bytes 0) ∷ []) }
{
    if bytes < 1 || outstanding < bytes {
        return Err(Error::Uncovered { outstanding, bytes });
    }
    Ok(())
}

// The CREDIT record of a credit: 23, 20, 18, then the record.
#[tactic(auto, using(wire::proofs::Rows::numbered, std::proofs::lemmas::Bool::Decides::nat_tests, wire::proofs::NumberLaws::written), unfolding(crate::specs::Send::crediting, wire::specs::Refusals::first))]
fn encode_credit(
    session: GuestSession,
    bytes: u32,
    output: &mut [u8],
    at: usize,
) -> Result<Encoded, Error>
    ensures { writing.outcome (writing.encoded session.send_sequence.0 result) output.new ≡ crediting session bytes output.old at }
{
    stopped(session.is_sound(), session.state == GuestState::Active)?;
    check_covered(bytes, session.outstanding)?;
    encode_next(
        RecordType::Credit,
        held(session.identity),
        session.send_sequence,
        &bytes.to_le_bytes(),
        output,
        at,
    )
}

// Writes a CREDIT record: returns consumed bytes to the window.
#[tactic(auto, using(std::proofs::lemmas::Bool::Decides::nat_tests, wire::proofs::Rows::refuses, crate::proofs::Sending::by_crediting), unfolding(crate::specs::Send::crediting, wire::specs::Refusals::first))]
pub fn credit(
    mut session: GuestSession,
    bytes: u32,
    output: &mut [u8],
    at: usize,
) -> After<GuestSession, Sent>
    ensures { outcome (sent result) output.new ≡ calls.credit session bytes output.old at }
{
    let written = encode_credit(session, bytes, output, at);
    if let Ok(written) = written {
        session.send_sequence = written.sequence;
        session.outstanding -= bytes;
    }
    let answer = written.map(|written| written.sent);
    After { answer, session }
}
