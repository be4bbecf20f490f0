// A guest that receives a stream of DATA records in pieces.
ghost use Rattle.std.specs.Prelude.{◌≡◌, length};

use crate::start::active_guest;
use crate::sums::Sums;
use guest::{GuestEvent, GuestSession, payload};

// A guest, and the sums over what it handed out.
#[derive(Clone, Copy)]
pub struct Run {
    pub guest: GuestSession,
    pub sums: Sums,
}

impl Run {
    // One receive of the front of a piece, and how many bytes it took.
    fn receive(&mut self, piece: &[u8], whole: bool, stage: &mut [u8]) -> usize {
        let done = guest::receive(self.guest, piece, stage);
        let Ok(received) = done.store(&mut self.guest) else {
            return 0;
        };
        if let Some(GuestEvent::Data { place, length }) = received.event {
            let bytes = payload(piece, stage, place, length);
            self.sums.add_payload(bytes, whole);
        }
        received.consumed
    }

    // Receives until a piece is taken, and answers whether it was. A turn takes what
    // one receive took, so no iterator walks the piece.
    fn receive_all(&mut self, piece: &[u8], whole: bool, stage: &mut [u8]) -> bool {
        let mut left = piece;
        while !left.is_empty() {
            let taken = self.receive(left, whole, stage);
            if taken == 0 {
                return false;
            }
            left = left.get(taken..).unwrap_or(&[]);
        }
        true
    }
}

// Receives the stream, cut into pieces of so many bytes, and gives the sums over the payloads; 0
// where a piece is refused.
// Internal: a loop to be timed. Of the lent bytes it states the length alone; `make bench` holds its
// answers to the Rust's.
pub fn nvxs_receive(stream: &[u8], piece: usize, whole: bool, stage: &mut [u8]) -> u64
    ensures { length stage.new ≡ length stage.old }
{
    if piece == 0 {
        return 0;
    }
    let mut run = Run {
        guest: active_guest(),
        sums: Sums::default(),
    };
    for part in stream.chunks(piece) {
        if !run.receive_all(part, whole, stage) {
            return 0;
        }
    }
    run.sums.weighted
}
