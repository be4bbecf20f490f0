// Blocks of calls, run on fresh sessions (tests/differential/FORMAT.md).
use replay::answer::{ANSWERS, Answers};
use replay::frames::{Frames, MEMORY};
use replay_calls::sessions::Sessions;

// The most bytes that one answer takes.
const ROOM: usize = 66048;
// Where the first answer's operation stands.
const OPERATION: usize = 4;

// Runs the calls one after another, on fresh sessions and a memory of zeros, and puts their answers
// behind those that are there, while so much room is left.
fn run(calls: &[u8], thin: bool, answers: &mut Answers) {
    let mut memory = [0u8; MEMORY];
    let mut sessions = Sessions::new();
    for f in Frames::new(calls, thin) {
        if ANSWERS.saturating_sub(answers.len()) < ROOM {
            return;
        }
        let answer = sessions.turn(f, &mut memory);
        if answer.append(f, &memory, answers).is_err() {
            return;
        }
    }
}

// Puts the answers of a block's calls. They are run a second time by the thin entries, where any were
// answered. Where these answer otherwise the first answer's operation is 255, which no answer has.
pub fn block(calls: &[u8], answers: &mut Answers) {
    answers.clear();
    run(calls, false, answers);
    if answers.len() <= OPERATION {
        return;
    }
    let mut thin = Answers::new();
    run(calls, true, &mut thin);
    if answers.as_slice() != thin.as_slice()
        && let Some(op) = answers.as_mut_slice().get_mut(OPERATION)
    {
        *op = 255;
    }
}
