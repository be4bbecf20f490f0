// A guest that sends data in DATA records of one size.
ghost use Rattle.std.specs.Prelude.{◌≡◌, length};

use crate::start::active_guest;
use outer::OUTER_MAX_PAYLOAD;

// Sends the data in records of so many bytes, one after another in the output, and gives the
// position after the last; 0 where one is refused.
// Internal: a loop to be timed. Of the lent bytes it states the length alone; `make bench` holds its
// answers to the Rust's.
pub fn nvxs_send(data: &[u8], size: usize, output: &mut [u8]) -> usize
    ensures { length output.new ≡ length output.old }
{
    if size == 0 {
        return 0;
    }
    let mut guest = active_guest();
    let mut next = 0;
    for bytes in data.chunks(size.min(OUTER_MAX_PAYLOAD)) {
        let done = guest::send(guest, bytes, output, next);
        let Ok(sent) = done.answer else {
            return 0;
        };
        guest = done.session;
        next = sent.next;
    }
    next
}
