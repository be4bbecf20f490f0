// The guest's session by value (nvxs/guest.rs): what it is and whether it is sound, what it answers
// when asked (`asks`), and its calls but `receive` (`control`, `send`). The crate `guest`, which a
// guest's program uses, passes all of this on and adds `receive`.
#![tactic(auto)]

pub mod asks;
pub mod control;
pub mod send;

ghost use Rattle.std.specs.Prelude.{◌≡◌};
ghost use Rattle.guest_core.specs.State.{code, is_open, is_live, is_ended, fresh_guest, sound_guest, active_guest, figures_ok};

use outer::payloads::OUTER_MAX_RECEIVE_WINDOW;
use parser::RecordParser;
use session::{Identity, is_held};
use wire::Sequence;

// State of the guest's session.
#[derive(Clone, Copy, Debug, PartialEq, Eq)]
pub enum GuestState {
    Detached,
    Attaching,
    Resetting,
    Active,
    Closed,
    Failed,
}

// The guest's role in a session. The one byte of the state is last, so that the rest lies at even
// places.
#[derive(Clone, Copy)]
pub struct GuestSession {
    pub parser: RecordParser,
    pub identity: Option<Identity>,
    pub receive_sequence: Sequence,
    pub send_sequence: Sequence,
    pub window: u32,
    pub outstanding: u32,
    pub state: GuestState,
}

impl GuestState {
    // The state's number, from 0 in 01's order, written out as 01 has it.
    pub fn number(self) -> u8
        ensures { result ≡ code self }
    {
        match self {
            GuestState::Detached => 0,
            GuestState::Attaching => 1,
            GuestState::Resetting => 2,
            GuestState::Active => 3,
            GuestState::Closed => 4,
            GuestState::Failed => 5,
        }
    }

    // Whether the state needs an identity.
    fn is_live(self) -> bool
        ensures { result ≡ is_live self }
    {
        matches!(self, GuestState::Resetting | GuestState::Active)
    }

    // Whether a guest receives in this state.
    pub fn is_open(self) -> bool
        ensures { result ≡ is_open self }
    {
        matches!(
            self,
            GuestState::Attaching | GuestState::Resetting | GuestState::Active
        )
    }

    // Whether the session is over: disconnect does nothing then.
    pub(crate) fn is_ended(self) -> bool
        ensures { result ≡ is_ended self }
    {
        matches!(self, GuestState::Closed | GuestState::Failed)
    }
}

// Whether window, outstanding and identity fit each other and the state.
#[tactic(auto, using(std::proofs::lemmas::Bool::Decides::nat_tests))]
fn figures_ok(state: GuestState, window: u32, outstanding: u32, identity: Option<Identity>) -> bool
    ensures { result ≡ figures_ok state window outstanding identity }
{
    outstanding <= window
        && window <= OUTER_MAX_RECEIVE_WINDOW
        && (state != GuestState::Resetting || window == 0)
        && (!state.is_live() || is_held(identity))
}

impl GuestSession {
    // A session that has not attached.
    pub fn new() -> GuestSession
        ensures { result ≡ fresh_guest }
    {
        GuestSession {
            parser: RecordParser::new(),
            identity: None,
            receive_sequence: Sequence(0),
            send_sequence: Sequence(0),
            window: 0,
            outstanding: 0,
            state: GuestState::Detached,
        }
    }

    // Whether the value is one that a session can have (01, 23).
    #[tactic(auto, unfolding(crate::specs::State::sound_guest))]
    pub fn is_sound(self) -> bool
        ensures { result ≡ sound_guest self }
    {
        self.parser.is_sound()
            && figures_ok(self.state, self.window, self.outstanding, self.identity)
    }

    // Whether the session is Active, and sound but for its parser: the commonest sessions, told by
    // few tests.
    #[tactic(auto, using(std::proofs::lemmas::Bool::Decides::nat_tests), unfolding(crate::specs::State::active_guest))]
    pub fn is_active(self) -> bool
        ensures { result ≡ active_guest self }
    {
        self.state == GuestState::Active
            && self.outstanding <= self.window
            && self.window <= OUTER_MAX_RECEIVE_WINDOW
            && is_held(self.identity)
    }
}
