// The benchmark's echo (bench/): it is apart from the loops of bench_core, so that each library
// calls `receive` and `send` of a guest in one place, as a guest's program does. The static library
// bench_echo_c exports it.
#![tactic(auto)]

pub mod echo;
mod start;
