// The entries that change the caller's session (01, "thin entries for receive and credit change the
// caller's session"): `receive_in` of both ends and the guest's `credit_in`. Each passes a copy of the
// session to the operation by value and stores the session of its answer back. `receive_once` and
// `credit_once` are for callers that keep no session in place: the replay runs the entries by them.
#![tactic(auto)]

ghost use Rattle.std.specs.Prelude.{◌≡◌, ℕ, List};
ghost use Rattle.session.specs.declared.After.{After};
ghost use Rattle.session.specs.declared.Received.{Received};
ghost use Rattle.guest.specs.Receive as guest;
ghost use Rattle.guest_core.specs.Writes.{outcome, sent};
ghost use Rattle.guest_core.specs.Send.{credit};
ghost use Rattle.host.specs.Receive as host;

use guest::{After, Error, GuestEvent, GuestSession, Received, Sent, credit};
use host::{HostEvent, HostSession};

// A session that receives: its receive by value, and the rule that it meets.
pub trait Receive: Copy {
    type Event: Copy;

    ghost rule: { Self → List ℕ → List ℕ → After Self (Received Self.Event) → List ℕ → Type 0 };

    // Takes bytes of the piece up to the end of one record, and reports what the record says.
    fn receive(self, piece: &[u8], stage: &mut [u8]) -> After<Self, Received<Self::Event>>
        ensures { rule self piece.now stage.old result stage.new };
}

impl Receive for GuestSession {
    type Event = GuestEvent;

    ghost rule = { λ session piece stage done after. guest.outcome (guest.received done) after ≡ guest.receive_of session piece stage };

    fn receive(self, piece: &[u8], stage: &mut [u8]) -> After<GuestSession, Received<GuestEvent>> {
        guest::receive(self, piece, stage)
    }
}

impl Receive for HostSession {
    type Event = HostEvent;

    ghost rule = { λ session piece stage done after. host.outcome (host.received done) after ≡ host.receive_of session piece stage };

    fn receive(self, piece: &[u8], stage: &mut [u8]) -> After<HostSession, Received<HostEvent>> {
        host::receive(self, piece, stage)
    }
}

// Receives into the caller's session. The bytes of data are had by the end's `payload`.
pub fn receive_in<S: Receive>(
    session: &mut S,
    piece: &[u8],
    stage: &mut [u8],
) -> Result<Received<S::Event>, Error>
    ensures { S.rule session.old piece.now stage.old (record { answer = result; session = session.new }) stage.new }
{
    session.receive(piece, stage).store(session)
}

// `receive_in` on a session that is passed and answered by value.
pub fn receive_once<S: Receive>(
    mut session: S,
    piece: &[u8],
    stage: &mut [u8],
) -> After<S, Received<S::Event>>
    ensures { S.rule session piece.now stage.old result stage.new }
{
    let answer = receive_in(&mut session, piece, stage);
    After { answer, session }
}

// Writes a CREDIT record: returns consumed bytes to the window.
pub fn credit_in(
    session: &mut GuestSession,
    bytes: u32,
    output: &mut [u8],
    at: usize,
) -> Result<Sent, Error>
    ensures { outcome (sent (record { answer = result; session = session.new })) output.new ≡ credit session.old bytes output.old at }
{
    credit(*session, bytes, output, at).store(session)
}

// `credit_in` on a session that is passed and answered by value.
pub fn credit_once(
    mut session: GuestSession,
    bytes: u32,
    output: &mut [u8],
    at: usize,
) -> After<GuestSession, Sent>
    ensures { outcome (sent result) output.new ≡ credit session bytes output.old at }
{
    let answer = credit_in(&mut session, bytes, output, at);
    After { answer, session }
}
