// The calls of a list, each run on a session, a bare parser or the layers below
// (tests/differential/FORMAT.md): for `replay_run`. Harness code: it says nothing in an `ensures`.
#![tactic(auto)]

mod ends;
mod guest_calls;
mod host_calls;
mod outer_calls;
mod parser_calls;
mod plain;
mod record_calls;
pub mod sessions;
