// A guest at the point where DATA flows.
use guest::{GuestSession, GuestState};
use parser::RecordParser;
use session::Identity;
use wire::{Epoch, Sequence};

// The instance of the identity that both ends have.
pub const INSTANCE: [u8; 16] = [17; 16];
// Its epoch.
pub const EPOCH: u64 = 7;
// The guest's window: 4 MiB.
pub const WINDOW: u32 = 4194304;

// A guest that has acknowledged a RESET of sequence 0.
// Internal: serves the benchmark, which states nothing of it.
pub fn active_guest() -> GuestSession {
    GuestSession {
        parser: RecordParser::new(),
        identity: Some(Identity {
            instance_id: INSTANCE,
            epoch: Epoch(EPOCH),
        }),
        receive_sequence: Sequence(1),
        send_sequence: Sequence(1),
        window: WINDOW,
        outstanding: 0,
        state: GuestState::Active,
    }
}
