// What a host's session answers when asked (01, "Host"): 23, or the value. Nothing changes.
ghost use Rattle.std.specs.Prelude.{◌≡◌};
ghost use Rattle.parser.specs.Push.{count_of};
ghost use Rattle.host.specs.Asks.{state_told, state_of, identity_told, identity_of, needed_by};

use crate::{HostSession, HostState};
use session::{Identity, asked};
use wire::errors::Error;

// The session's state. Why the guest has an ask of its own, here and below: crates/guest_core/src/asks.rt.
#[tactic(auto, unfolding(crate::specs::Asks::state_of))]
pub fn state(session: HostSession) -> Result<HostState, Error>
    ensures { state_told result ≡ state_of session }
{
    asked(session.is_sound(), session.state)
}

// The identity that the session holds.
#[tactic(auto, unfolding(crate::specs::Asks::identity_of))]
pub fn identity(session: HostSession) -> Result<Option<Identity>, Error>
    ensures { identity_told result ≡ identity_of session }
{
    asked(session.is_sound(), session.identity)
}

// How many more bytes complete the header or the payload in progress.
#[tactic(auto, using(crate::proofs::Soundness::sound_inside), unfolding(crate::specs::Asks::needed_by, parser::specs::Push::counted))]
pub fn needed(session: HostSession) -> Result<usize, Error>
    ensures { count_of result ≡ needed_by session }
{
    if !session.is_sound() {
        return Err(Error::Unsound);
    }
    session.parser.needed()
}
