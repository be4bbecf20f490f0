// A host's session, as the calls of a list change it: operations 20 to 26 and 51.
use crate::ends::End;
use host::{After, Error, HostSession, Sent};
use replay::answer::{Answer, State};
use replay::frames::{Frame, HOST_STAGE};
use replay::operations::WriteCall;
use wire::Sequence;

impl End for HostSession {
    const STAGE: usize = HOST_STAGE;

    // A capability has 32 bytes, and a host neither acknowledges nor credits.
    fn write(self, call: WriteCall, f: Frame<'_>, output: &mut [u8]) -> Option<After<Self, Sent>> {
        match call {
            WriteCall::Attach => {
                let capability = <[u8; 32]>::try_from(f.input).ok()?;
                Some(host::attach(self, capability, output, f.at()))
            }
            WriteCall::Send => Some(host::send(self, f.input, output, f.at())),
            WriteCall::Acknowledge | WriteCall::Credit => None,
        }
    }

    fn disconnect(self) -> After<Self, ()> {
        host::disconnect(self)
    }

    fn asks(self) -> Result<Answer, Error> {
        Ok(Answer {
            event: host::state(self)?.number(),
            next: host::needed(self)? as u64,
            identity: host::identity(self)?,
            ..Answer::default()
        })
    }

    fn with_sequences(self, send: Sequence, due: Sequence) -> HostSession {
        HostSession {
            send_sequence: send,
            receive_sequence: due,
            ..self
        }
    }

    fn state(self) -> State {
        State::Host(self)
    }
}
