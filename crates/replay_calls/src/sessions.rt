// The sessions and the parser of a block, and a call on them.
use crate::{ends, parser_calls, plain};
use guest::GuestSession;
use host::HostSession;
use parser::RecordParser;
use replay::answer::Answer;
use replay::frames::Frame;
use replay::operations::Operation;

// The sessions and the parser that the calls of a block are on.
#[derive(Clone, Copy)]
pub struct Sessions {
    guest: GuestSession,
    host: HostSession,
    parser: RecordParser,
}

impl Sessions {
    // Fresh ones.
    // Internal: serves the comparison with the Rust, which states nothing of it.
    pub fn new() -> Sessions {
        Sessions {
            guest: GuestSession::new(),
            host: HostSession::new(),
            parser: RecordParser::new(),
        }
    }

    // Runs a call. An unknown operation has the answer with zeros.
    // Internal: serves the comparison with the Rust, which states nothing of it.
    pub fn turn(&mut self, f: Frame<'_>, memory: &mut [u8]) -> Answer {
        let Ok(operation) = Operation::try_from(f.op) else {
            return Answer::default();
        };
        match operation {
            Operation::Fresh => {
                *self = Sessions::new();
                Answer::default()
            }
            Operation::Guest(call) => ends::turn(&mut self.guest, call, f, memory),
            Operation::Host(call) => ends::turn(&mut self.host, call, f, memory),
            Operation::Parser(call) => parser_calls::turn(&mut self.parser, call, f, memory),
            Operation::Plain(call) => plain::call(call, f, memory).unwrap_or_default(),
        }
    }
}
