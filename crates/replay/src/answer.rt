// What a call answers, and its bytes (tests/differential/FORMAT.md).
use crate::bytes::{Bytes, count4, number_of};
use crate::frames::{AREA, Frame};
use arrayvec::{ArrayVec, CapacityError};
use guest::GuestSession;
use host::HostSession;
use parser::{Place, RecordParser, payload};
use session::Identity;
use wire::Refusal;
use wire::errors::Error;
use wire::parts::part;

// The most bytes that the answers of a block take.
pub const ANSWERS: usize = 262144;

// Answers, one after another.
pub type Answers = ArrayVec<u8, ANSWERS>;

// Bytes of an answer's head.
const HEAD: u32 = 128;

// A part of the memory, or what the port's own `payload` has of the input and of the stage that
// starts there.
#[derive(Clone, Copy, Default)]
pub enum Part {
    #[default]
    Nothing,
    Payload {
        place: Place,
        stage: usize,
        length: usize,
    },
    Memory {
        from: usize,
        length: usize,
    },
}

impl Part {
    // Its bytes, where the input and the memory have so many.
    fn slice<'a>(self, input: &'a [u8], memory: &'a [u8]) -> &'a [u8] {
        match self {
            Part::Nothing => &[],
            Part::Payload {
                place,
                stage,
                length,
            } => payload(input, part(memory, stage, AREA), place, length),
            Part::Memory { from, length } => part(memory, from, length),
        }
    }
}

// The state that an answer shows.
#[derive(Clone, Copy, Default)]
pub enum State {
    #[default]
    Nothing,
    Guest(GuestSession),
    Host(HostSession),
    Parser(RecordParser),
}

impl State {
    // How many bytes it has.
    fn size(self) -> u32 {
        match self {
            State::Nothing => 0,
            State::Guest(_) | State::Host(_) => 192,
            State::Parser(_) => 120,
        }
    }
}

impl Bytes for State {
    fn append(self, out: &mut Answers) -> Result<(), CapacityError> {
        match self {
            State::Nothing => Ok(()),
            State::Guest(guest) => guest.append(out),
            State::Host(host) => host.append(out),
            State::Parser(parser) => parser.append(out),
        }
    }
}

// The answer of a call. What does not apply is 0 or none.
#[derive(Clone, Copy, Default)]
pub struct Answer {
    pub event: u8,
    pub place: Option<Place>,
    pub refusal: Option<Refusal>,
    pub count: u64,
    pub next: u64,
    pub identity: Option<Identity>,
    pub window: Option<u32>,
    pub credit: Option<u32>,
    pub error_code: Option<u32>,
    pub record_type: u8,
    pub payload: Part,
    pub written: Part,
    pub state: State,
}

impl Answer {
    // Appends the answer's bytes: head, payload, written bytes, state.
    // Internal: serves the comparison with the Rust, which states nothing of it.
    pub fn append(
        self,
        f: Frame<'_>,
        memory: &[u8],
        out: &mut Answers,
    ) -> Result<(), CapacityError> {
        let payload = self.payload.slice(f.input, memory);
        let written = self.written.slice(f.input, memory);
        let payload_len = count4(payload.len());
        let written_len = count4(written.len());
        HEAD.saturating_add(payload_len)
            .saturating_add(written_len)
            .saturating_add(self.state.size())
            .append(out)?;
        f.op.append(out)?;
        self.append_event(out)?;
        payload_len.append(out)?;
        written_len.append(out)?;
        self.append_values(out)?;
        payload.append(out)?;
        written.append(out)?;
        self.state.append(out)
    }

    // The head's bytes 5 to 103.
    fn append_event(self, out: &mut Answers) -> Result<(), CapacityError> {
        self.event.append(out)?;
        place_number(self.place).append(out)?;
        number_of(self.refusal).append(out)?;
        self.refusal.append(out)?;
        self.count.append(out)?;
        self.next.append(out)?;
        self.identity.append(out)
    }

    // The head's bytes 112 to 127.
    fn append_values(self, out: &mut Answers) -> Result<(), CapacityError> {
        u8::from(self.window.is_some()).append(out)?;
        u8::from(self.credit.is_some()).append(out)?;
        u8::from(self.error_code.is_some()).append(out)?;
        self.record_type.append(out)?;
        self.window.unwrap_or(0).append(out)?;
        self.credit.unwrap_or(0).append(out)?;
        self.error_code.unwrap_or(0).append(out)
    }
}

impl From<Error> for Answer {
    fn from(error: Error) -> Answer {
        Answer {
            refusal: Some(Refusal::from(error)),
            ..Answer::default()
        }
    }
}

impl<T: Into<Answer>> From<Result<T, Error>> for Answer {
    fn from(done: Result<T, Error>) -> Answer {
        match done {
            Ok(value) => value.into(),
            Err(error) => error.into(),
        }
    }
}

// A place's number (FORMAT.md).
fn place_number(place: Option<Place>) -> u8 {
    match place {
        None => 0,
        Some(Place::Piece(_)) => 1,
        Some(Place::Stage) => 2,
    }
}
