// What the benchmark calls of bench_core from Rust (bench/rattle.rs), as a static library.
#![tactic(auto)]

ghost use Rattle.std.specs.Prelude.{◌≡◌, length};

use bench_core::{receive, send};

// Receives the stream, cut into pieces of so many bytes, and gives the sums over the payloads; 0
// where a piece is refused.
// Internal: a loop to be timed. Of the lent bytes it states the length alone; `make bench` holds its
// answers to the Rust's.
#[unsafe(no_mangle)]
pub extern "C" fn nvxs_receive(stream: &[u8], piece: usize, whole: bool, stage: &mut [u8]) -> u64
    ensures { length stage.new ≡ length stage.old }
{
    receive::nvxs_receive(stream, piece, whole, stage)
}

// Sends the data in records of so many bytes, one after another in the output, and gives the
// position after the last; 0 where one is refused.
// Internal: a loop to be timed. Of the lent bytes it states the length alone; `make bench` holds its
// answers to the Rust's.
#[unsafe(no_mangle)]
pub extern "C" fn nvxs_send(data: &[u8], size: usize, output: &mut [u8]) -> usize
    ensures { length output.new ≡ length output.old }
{
    send::nvxs_send(data, size, output)
}
