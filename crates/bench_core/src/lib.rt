// The loops of the benchmark (bench/): each holds a whole loop of calls, so that what is timed from
// Rust are the calls and not the way to them. The static library bench_core_c exports them.
#![tactic(auto)]

pub mod receive;
pub mod send;
pub mod start;
pub mod sums;
