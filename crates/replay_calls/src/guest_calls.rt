// A guest's session, as the calls of a list change it: operations 10 to 16 and 50.
use crate::ends::End;
use entries::credit_once;
use guest::{After, Error, GuestSession, Sent};
use replay::answer::{Answer, State};
use replay::frames::{Frame, GUEST_STAGE};
use replay::operations::WriteCall;
use wire::Sequence;

impl End for GuestSession {
    const STAGE: usize = GUEST_STAGE;

    fn write(self, call: WriteCall, f: Frame<'_>, output: &mut [u8]) -> Option<After<Self, Sent>> {
        let at = f.at();
        Some(match call {
            WriteCall::Attach => guest::attach(self, output, at),
            WriteCall::Acknowledge => guest::acknowledge(self, f.value(), output, at),
            WriteCall::Send => guest::send(self, f.input, output, at),
            WriteCall::Credit if f.thin => credit_once(self, f.value(), output, at),
            WriteCall::Credit => guest::credit(self, f.value(), output, at),
        })
    }

    fn disconnect(self) -> After<Self, ()> {
        guest::disconnect(self)
    }

    fn asks(self) -> Result<Answer, Error> {
        Ok(Answer {
            event: guest::state(self)?.number(),
            count: guest::outstanding(self)?.into(),
            next: guest::needed(self)? as u64,
            identity: guest::identity(self)?,
            window: guest::window(self)?,
            ..Answer::default()
        })
    }

    fn with_sequences(self, send: Sequence, due: Sequence) -> GuestSession {
        GuestSession {
            send_sequence: send,
            receive_sequence: due,
            ..self
        }
    }

    fn state(self) -> State {
        State::Guest(self)
    }
}
