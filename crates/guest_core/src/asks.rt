// What a guest's session answers when asked (01, "Guest"): 23, or the value. Nothing changes.
ghost use Rattle.std.specs.Prelude.{◌≡◌};
ghost use Rattle.parser.specs.Push.{count_of};
ghost use Rattle.guest_core.specs.Asks.{state_told, state_of, identity_told, identity_of, window_told, window_of, outstanding_told, outstanding_of, needed_by};

use crate::{GuestSession, GuestState};
use session::{Identity, asked};
use wire::errors::Error;

// The session's state. The host has this ask, `identity` and `needed` over its own session: three asks of six to
// nine lines, against a trait of four members (soundness, state, identity, parser) and two impls.
#[tactic(auto, unfolding(crate::specs::Asks::state_of))]
pub fn state(session: GuestSession) -> Result<GuestState, Error>
    ensures { state_told result ≡ state_of session }
{
    asked(session.is_sound(), session.state)
}

// The identity that the session holds (why the host has its own: `state`).
#[tactic(auto, unfolding(crate::specs::Asks::identity_of))]
pub fn identity(session: GuestSession) -> Result<Option<Identity>, Error>
    ensures { identity_told result ≡ identity_of session }
{
    asked(session.is_sound(), session.identity)
}

// The receive window, none unless Active.
#[tactic(auto, unfolding(crate::specs::Asks::window_of))]
pub fn window(session: GuestSession) -> Result<Option<u32>, Error>
    ensures { window_told result ≡ window_of session }
{
    let window = (session.state == GuestState::Active).then_some(session.window);
    asked(session.is_sound(), window)
}

// The bytes handed out and not credited.
#[tactic(auto, unfolding(crate::specs::Asks::outstanding_of))]
pub fn outstanding(session: GuestSession) -> Result<u32, Error>
    ensures { outstanding_told result ≡ outstanding_of session }
{
    asked(session.is_sound(), session.outstanding)
}

// How many more bytes complete the header or the payload in progress (why the host has its own: `state`).
#[tactic(auto, using(crate::proofs::Soundness::sound_inside), unfolding(crate::specs::Asks::needed_by, parser::specs::Push::counted))]
pub fn needed(session: GuestSession) -> Result<usize, Error>
    ensures { count_of result ≡ needed_by session }
{
    if !session.is_sound() {
        return Err(Error::Unsound);
    }
    session.parser.needed()
}
