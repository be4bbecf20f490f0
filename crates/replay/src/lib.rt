// What the calls of a list and their answers are, and their bytes (tests/differential/FORMAT.md): for
// `replay_run`, which runs the calls. Harness code: it says nothing in an `ensures`.
#![tactic(auto)]

pub mod answer;
mod bytes;
mod events;
pub mod frames;
pub mod operations;
