// The host's calls that write, and disconnect (01, "Host"): each takes the session and answers with
// the session after it.
ghost use Rattle.std.specs.Prelude.{◌≡◌, replicate};
ghost use Rattle.wire.specs.Refusals.{first};
ghost use Rattle.outer.specs.Outer as outer;
ghost use Rattle.record.specs.Record.{record_bytes};
ghost use Rattle.session.specs.Writes as writing;
ghost use Rattle.host.specs.Calls.{outcome, sent, closed, attach_rows, encoding};
ghost use Rattle.host.specs.Calls as rule;

use crate::{HostSession, HostState};
use record::types::RecordType;
use session::checks::stopped;
use session::next::{Encoded, encode_bootstrap, encode_data};
use session::{After, Sent, held};
use wire::errors::Error;

// The HOST_ATTACH record with the capability: 23, 20, then the record. The guest has this too: each names its
// own session, state and record, and what is alike is `stopped` and `encode_bootstrap`.
#[tactic(auto, using(wire::proofs::Rows::numbered), unfolding(record::specs::Record::encode_record, record::specs::Record::all_zero, record::specs::Types::length_ok, outer::specs::Outer::write, wire::specs::Refusals::first))]
fn write_attach(
    session: HostSession,
    capability: [u8; 32],
    output: &mut [u8],
    at: usize,
) -> Result<usize, Error>
    ensures { outer.outcome (outer.written result) output.new ≡ outer.write (first (attach_rows session output.old at)) (record_bytes 2 (replicate 16 0) 0 0 capability) output.old at }
{
    stopped(session.is_sound(), session.state == HostState::Detached)?;
    encode_bootstrap(RecordType::HostAttach, &capability, output, at)
}

// Writes the record with which the host attaches. The guest has this too: each builds its own session and
// names its own state, which a trait would have to do for both: no plainer.
#[tactic(auto, using(wire::proofs::Rows::numbered), unfolding(crate::specs::Calls::attach, crate::specs::Calls::writes, outer::specs::Outer::write))]
pub fn attach(
    session: HostSession,
    capability: [u8; 32],
    output: &mut [u8],
    at: usize,
) -> After<HostSession, Sent>
    ensures { outcome (sent result) output.new ≡ rule.attach session capability output.old at }
{
    let written = write_attach(session, capability, output, at);
    let attached = written.map(|next| {
        let session = HostSession {
            state: HostState::Attaching,
            ..session
        };
        (session, Sent { count: 0, next })
    });
    After::of(session, attached)
}

// The DATA record of a send: 23, 20, then the record. The guest has this too (`encode_any`): each names its
// own session and state, and what is alike is `stopped` and `encode_data`.
#[tactic(auto, using(wire::proofs::Rows::numbered), unfolding(crate::specs::Calls::encoding, wire::specs::Refusals::first))]
fn encode_sent(
    session: HostSession,
    bytes: &[u8],
    output: &mut [u8],
    at: usize,
) -> Result<Encoded, Error>
    ensures { writing.outcome (writing.encoded session.send_sequence.0 result) output.new ≡ encoding session bytes.now output.old at }
{
    stopped(session.is_sound(), session.state == HostState::Attached)?;
    encode_data(
        held(session.identity),
        session.send_sequence,
        bytes,
        output,
        at,
    )
}

// Writes a DATA record of at most the first 65,536 bytes, and says how many it took. Of the session
// only the sequence changes, and a refusal leaves that too. The guest has this too: each changes its own
// session under its own rule, which a trait would have to do for both: no plainer.
#[tactic(auto, using(wire::proofs::Rows::refuses, crate::proofs::Calling::by_encoding))]
pub fn send(
    mut session: HostSession,
    bytes: &[u8],
    output: &mut [u8],
    at: usize,
) -> After<HostSession, Sent>
    ensures { outcome (sent result) output.new ≡ rule.send session bytes.now output.old at }
{
    let encoded = encode_sent(session, bytes, output, at);
    if let Ok(encoded) = encoded {
        session.send_sequence = encoded.sequence;
    }
    let answer = encoded.map(|encoded| encoded.sent);
    After { answer, session }
}

// Ends the session at the end of the stream: 19 with bytes buffered leaves Failed, or it leads to
// Closed. The guest has this too: each builds its own session and names its own states, which a trait would
// have to do for both: no plainer.
#[tactic(auto, unfolding(crate::specs::State::sound_host, crate::specs::Calls::disconnect, wire::specs::Refusals::first))]
pub fn disconnect(session: HostSession) -> After<HostSession, ()>
    ensures { closed result ≡ rule.disconnect session }
{
    if !session.is_sound() {
        return After::of(session, Err(Error::Unsound));
    }
    if !session.state.is_begun() {
        return After::of(session, Ok((session, ())));
    }
    let answer = session.parser.ended();
    let state = match answer {
        Ok(()) => HostState::Closed,
        Err(_) => HostState::Failed,
    };
    After {
        answer,
        session: HostSession { state, ..session },
    }
}
