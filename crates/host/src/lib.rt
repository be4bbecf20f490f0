// The host's session by value (nvxs/host.rs): what it is and whether it is sound, what it answers
// when asked (`asks`), the calls that write, and disconnect (`calls`), what stops a record (`checks`)
// and `receive` (`accept`), with `payload` for the bytes of DATA that a receive handed out.
#![tactic(auto)]

mod accept;
mod asks;
mod calls;
mod checks;

ghost use Rattle.std.specs.Prelude.{◌≡◌};
ghost use Rattle.host.specs.State.{code, is_open, is_begun, fresh_host, sound_host};

pub use crate::accept::{HostEvent, receive};
pub use crate::asks::{identity, needed, state};
pub use crate::calls::{attach, disconnect, send};
use parser::RecordParser;
pub use parser::{Place, payload};
use session::is_held;
pub use session::{After, Identity, Received, Sent};
pub use wire::errors::Error;
pub use wire::{Epoch, Refusal, Sequence};

// State of the host's session.
#[derive(Clone, Copy, Debug, PartialEq, Eq)]
pub enum HostState {
    Detached,
    Attaching,
    Attached,
    Rejected,
    Reset,
    Closed,
    Failed,
}

// The host's role in a session. The one-byte field is last, so that the others lie at even places.
#[derive(Clone, Copy)]
pub struct HostSession {
    pub parser: RecordParser,
    pub identity: Option<Identity>,
    pub receive_sequence: Sequence,
    pub send_sequence: Sequence,
    pub state: HostState,
}

impl HostState {
    // The state's number, from 0 in 01's order, written out as 01 has it.
    pub fn number(self) -> u8
        ensures { result ≡ code self }
    {
        match self {
            HostState::Detached => 0,
            HostState::Attaching => 1,
            HostState::Attached => 2,
            HostState::Rejected => 3,
            HostState::Reset => 4,
            HostState::Closed => 5,
            HostState::Failed => 6,
        }
    }

    // Whether a host receives in the state.
    pub(crate) fn is_open(self) -> bool
        ensures { result ≡ is_open self }
    {
        matches!(self, HostState::Attaching | HostState::Attached)
    }

    // Whether disconnect acts in the state: the first three.
    pub(crate) fn is_begun(self) -> bool
        ensures { result ≡ is_begun self }
    {
        matches!(
            self,
            HostState::Detached | HostState::Attaching | HostState::Attached
        )
    }
}

impl HostSession {
    // A session that has not attached.
    pub fn new() -> HostSession
        ensures { result ≡ fresh_host }
    {
        HostSession {
            parser: RecordParser::new(),
            identity: None,
            receive_sequence: Sequence(0),
            send_sequence: Sequence(0),
            state: HostState::Detached,
        }
    }

    // Whether the value is one that a session can have (01, 23).
    #[tactic(auto, unfolding(crate::specs::State::sound_host))]
    pub fn is_sound(self) -> bool
        ensures { result ≡ sound_host self }
    {
        self.parser.is_sound() && (self.state != HostState::Attached || is_held(self.identity))
    }
}
