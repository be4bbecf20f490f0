// What the benchmark calls of bench_echo from Rust (bench/rattle.rs), as a static library.
#![tactic(auto)]

ghost use Rattle.std.specs.Prelude.{◌≡◌, length};

use bench_echo::echo;

// Sends a message there and back so many times, and gives the sums over the echoes.
// Internal: a loop to be timed. Of the lent bytes it states the length alone; `make bench` holds its
// answers to the Rust's.
#[unsafe(no_mangle)]
pub extern "C" fn nvxs_echo(
    message: &[u8],
    times: u32,
    whole: bool,
    stage: &mut [u8],
    wire: &mut [u8],
    reply: &mut [u8],
) -> u64
    ensures { (length stage.new ≡ length stage.old) × (length wire.new ≡ length wire.old) × (length reply.new ≡ length reply.old) }
{
    echo::nvxs_echo(message, times, whole, stage, wire, reply)
}
