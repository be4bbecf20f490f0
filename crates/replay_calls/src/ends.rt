// The calls of a session (tests/differential/FORMAT.md), of a guest's and of a host's alike.
use entries::{Receive, receive_once};
use replay::answer::{Answer, Part, State};
use replay::frames::{Frame, OUTPUT};
use replay::operations::{SessionCall, WriteCall};
use session::{After, Sent};
use wire::Sequence;
use wire::errors::Error;

// A session, as the calls of a list change it.
pub(crate) trait End: Receive<Event: Into<Answer>> {
    // Where its stage stands in the memory.
    const STAGE: usize;

    // A call that writes; none where the session has no such call of this input.
    fn write(self, call: WriteCall, f: Frame<'_>, output: &mut [u8]) -> Option<After<Self, Sent>>;

    fn disconnect(self) -> After<Self, ()>;

    // What its asks answer.
    fn asks(self) -> Result<Answer, Error>;

    fn with_sequences(self, send: Sequence, due: Sequence) -> Self;

    fn state(self) -> State;
}

// The answer of an operation that writes: what stands in the output from `at` on.
pub(crate) fn wrote(sent: Result<Sent, Error>, at: usize) -> Answer {
    match sent {
        Ok(Sent { count, next }) => Answer {
            count: count as u64,
            next: next as u64,
            written: Part::Memory {
                from: OUTPUT.saturating_add(at),
                length: next.saturating_sub(at),
            },
            ..Answer::default()
        },
        Err(error) => Answer::from(error),
    }
}

// Runs a call. Its answer shows the session.
pub(crate) fn turn<S: End>(
    session: &mut S,
    call: SessionCall,
    f: Frame<'_>,
    memory: &mut [u8],
) -> Answer {
    let answer = match call {
        SessionCall::Write(writing) => match session.write(writing, f, f.output(memory)) {
            Some(sent) => wrote(sent.store(session), f.at()),
            None => Answer::default(),
        },
        SessionCall::Receive => {
            let stage = f.stage(memory, S::STAGE);
            let done = if f.thin {
                receive_once(*session, f.input, stage)
            } else {
                session.receive(f.input, stage)
            };
            Answer::from(done.store(session))
        }
        SessionCall::Disconnect => match session.disconnect().store(session) {
            Ok(()) => Answer::default(),
            Err(error) => Answer::from(error),
        },
        SessionCall::Asks => Answer::from(session.asks()),
        SessionCall::SetSequences => {
            *session = session.with_sequences(Sequence(f.a), Sequence(f.b));
            Answer::default()
        }
    };
    Answer {
        state: session.state(),
        ..answer
    }
}
