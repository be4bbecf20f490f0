// Lists the records of a capture: standard input to standard output (01, "The link listing").
#![tactic(auto)]

ghost use Rattle.std.specs.Prelude.{◌≡◌, true, ◌<◌, ℕ, take};
ghost use Rattle.std.specs.Io.KnownBytes.{Consumes};
ghost use Rattle.nvxs_list.specs.Feeding.{Feeds};

use listing::list::list;
use listing::{LIMIT, Listing, names};
use std::io::{Read, Stdin};
use std::ops::ControlFlow;
use wire::errors::Error;

// The bytes of the output, which has room for a line.
const OUTPUT: usize = 65536;

// The listing after a piece: `Continue` where there is more to read, and `Break` after a refusal, at
// the end of reading, or where the output is closed.
type Fed = ControlFlow<Listing, Listing>;

// Writes the text, and answers whether all of it went out. By the kit's own call: std's output is a
// handle, which `read_all`, `read_once` (then of six parameters) and `feed` would only hand on.
fn flush(text: Option<&[u8]>) -> bool {
    text.is_some_and(|text| io::write_all(1, text))
}

// Whether there is more to list: what was written went out, nothing was refused, and bytes were
// taken.
fn goes_on(out: bool, answer: Result<(), Error>, taken: usize) -> bool
    ensures { result ≡ true → 0 < taken }
{
    out && answer.is_ok() && 0 < taken
}

// A piece, listed and written as often as it takes.
fn feed(start: Listing, piece: &[u8], stage: &mut [u8], output: &mut [u8; OUTPUT]) -> Fed
    ensures { Feeds start piece.now stage.old result stage.new }
{
    let mut listing = start;
    let mut taken: usize = 0;
    // Each turn takes what one call took, so no iterator walks the piece.
    while taken < piece.len() {
        let r = list(listing, &piece[taken..], stage, output);
        listing = r.listing;
        taken += r.taken;
        let out = flush(output.get(..r.written));
        if !goes_on(out, r.answer, r.taken) {
            return ControlFlow::Break(listing);
        }
    }
    ControlFlow::Continue(listing)
}

// Reads once and lists all that came. A read that fails is the end of the input.
#[tactic(auto, using(crate::proofs::Feeding::feeds_end, crate::proofs::Feeding::feeds_failed))]
fn read_once<R: Read>(
    input: &mut R,
    listing: Listing,
    buffer: &mut [u8],
    stage: &mut [u8],
    output: &mut [u8; OUTPUT],
) -> Fed
    ensures { (n : ℕ) × Consumes (R.remaining input.old) (R.remaining input.new) (take n buffer.new) × Feeds listing (take n buffer.new) stage.old result stage.new }
{
    let Ok(count) = input.read(buffer) else {
        // By the same call, for the same reason.
        io::write_all(2, b"nvxs_list: standard input cannot be read\n");
        return ControlFlow::Break(listing);
    };
    if count == 0 {
        return ControlFlow::Break(listing);
    }
    feed(listing, &buffer[..count], stage, output)
}

// Reads to the end, and lists. Each turn but the last reads a byte or more, so that LIMIT turns are
// enough.
fn read_all(mut input: Stdin, output: &mut [u8; OUTPUT]) -> Listing {
    let mut stage = [0u8; 65536];
    let mut buffer = [0u8; 262144];
    let mut listing = Listing::new();
    for _ in 0..LIMIT {
        match read_once(&mut input, listing, &mut buffer, &mut stage, output) {
            ControlFlow::Continue(next) => listing = next,
            ControlFlow::Break(last) => return last,
        }
    }
    listing
}

fn main(rt: HostRuntime) {
    let mut output = [0u8; OUTPUT];
    let Ok(first) = names(&mut output) else {
        return;
    };
    if flush(output.get(..first)) {
        let listing = read_all(rt.stdin(), &mut output);
        if let Ok(last) = listing.end(&mut output) {
            flush(output.get(..last));
        }
    }
}
