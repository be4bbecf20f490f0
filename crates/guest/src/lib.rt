// What a guest's program uses (nvxs/guest.rs): the session, what it answers when asked and its calls,
// all passed on from `guest_core`; `receive`, with `payload` for the bytes of DATA that a receive
// handed out; and the types of their answers.
#![tactic(auto)]

mod accept;
mod checks;
mod fast;

pub use crate::accept::GuestEvent;
pub use crate::fast::receive;
pub use guest_core::asks::{identity, needed, outstanding, state, window};
pub use guest_core::control::{acknowledge, attach, disconnect};
pub use guest_core::send::{credit, send};
pub use guest_core::{GuestSession, GuestState};
pub use parser::{Place, payload};
pub use session::{After, Identity, Received, Sent};
pub use wire::errors::Error;
pub use wire::{Epoch, Refusal, Sequence};
