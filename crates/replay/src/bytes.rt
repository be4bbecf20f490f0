// The bytes of what an answer has (tests/differential/FORMAT.md), appended one after another.
use crate::answer::Answers;
use arrayvec::CapacityError;
use guest::GuestSession;
use host::HostSession;
use parser::RecordParser;
use session::{Identity, held};
use wire::{Refusal, Sequence};

pub(crate) trait Bytes {
    fn append(self, out: &mut Answers) -> Result<(), CapacityError>;
}

impl<const N: usize> Bytes for [u8; N] {
    fn append(self, out: &mut Answers) -> Result<(), CapacityError> {
        out.try_extend_from_slice(&self)
    }
}

impl Bytes for &[u8] {
    fn append(self, out: &mut Answers) -> Result<(), CapacityError> {
        out.try_extend_from_slice(self)
    }
}

impl Bytes for u8 {
    fn append(self, out: &mut Answers) -> Result<(), CapacityError> {
        [self].append(out)
    }
}

impl Bytes for u32 {
    fn append(self, out: &mut Answers) -> Result<(), CapacityError> {
        self.to_le_bytes().append(out)
    }
}

impl Bytes for u64 {
    fn append(self, out: &mut Answers) -> Result<(), CapacityError> {
        self.to_le_bytes().append(out)
    }
}

impl Bytes for Identity {
    fn append(self, out: &mut Answers) -> Result<(), CapacityError> {
        self.instance_id.append(out)?;
        self.epoch.0.append(out)
    }
}

// Zeros where there is none.
impl Bytes for Option<Identity> {
    fn append(self, out: &mut Answers) -> Result<(), CapacityError> {
        held(self).append(out)
    }
}

// A refusal's figures and fields, without its number; zeros where there is none.
impl Bytes for Option<Refusal> {
    fn append(self, out: &mut Answers) -> Result<(), CapacityError> {
        let refusal = self.unwrap_or(Refusal::none());
        refusal.a.append(out)?;
        refusal.b.append(out)?;
        refusal.c.append(out)?;
        refusal.expected.append(out)?;
        refusal.actual.append(out)
    }
}

impl Bytes for RecordParser {
    fn append(self, out: &mut Answers) -> Result<(), CapacityError> {
        let error = self.error.map(Refusal::from);
        self.header.append(out)?;
        count4(self.header_len).append(out)?;
        (self.payload_len as u64).append(out)?;
        u64::from(number_of(error)).append(out)?;
        error.append(out)
    }
}

// What both sessions have, but for the state, of which each has its own type. Each fills it in from
// its own fields: a trait that gives them would have the same lines and its own besides.
#[derive(Clone, Copy)]
struct Common {
    state: u8,
    parser: RecordParser,
    identity: Option<Identity>,
    due: Sequence,
    send: Sequence,
}

impl Bytes for Common {
    fn append(self, out: &mut Answers) -> Result<(), CapacityError> {
        u64::from(self.state).append(out)?;
        self.parser.append(out)?;
        u64::from(self.identity.is_some()).append(out)?;
        self.identity.append(out)?;
        self.due.0.append(out)?;
        self.send.0.append(out)
    }
}

// A guest's fields, and then its own two.
impl Bytes for GuestSession {
    fn append(self, out: &mut Answers) -> Result<(), CapacityError> {
        let common = Common {
            state: self.state.number(),
            parser: self.parser,
            identity: self.identity,
            due: self.receive_sequence,
            send: self.send_sequence,
        };
        common.append(out)?;
        u64::from(self.window).append(out)?;
        u64::from(self.outstanding).append(out)
    }
}

// A host's fields, and then zeros.
impl Bytes for HostSession {
    fn append(self, out: &mut Answers) -> Result<(), CapacityError> {
        let common = Common {
            state: self.state.number(),
            parser: self.parser,
            identity: self.identity,
            due: self.receive_sequence,
            send: self.send_sequence,
        };
        common.append(out)?;
        [0u8; 16].append(out)
    }
}

// A refusal's number; 0 where there is none.
pub(crate) fn number_of(refusal: Option<Refusal>) -> u8 {
    refusal.map_or(0, |r| u8::try_from(r.number).unwrap_or(u8::MAX))
}

// A count in four bytes.
pub(crate) fn count4(count: usize) -> u32 {
    u32::try_from(count).unwrap_or(u32::MAX)
}
