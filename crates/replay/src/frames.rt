// The calls of a block, and the parts of the memory that they get (tests/differential/FORMAT.md).
ghost use Rattle.std.specs.Prelude.{length};
ghost use Rattle.std.specs.Iterator.{at_most};

use wire::{Epoch, Sequence};

// Bytes of an area of the memory.
pub const AREA: usize = 65600;
// Bytes of the memory: the stages of guest, host and bare parser, and the output.
pub const MEMORY: usize = 4 * AREA;
// Where the guest's stage stands in the memory.
pub const GUEST_STAGE: usize = 0;
// Where the host's stage stands.
pub const HOST_STAGE: usize = AREA;
// Where the bare parser's stage stands.
pub const PARSER_STAGE: usize = 2 * AREA;
// Where the output stands.
pub const OUTPUT: usize = 3 * AREA;

// A call: the operation's number, two figures and the input. `thin`: a session's receive and credit
// go by the thin entries.
#[derive(Clone, Copy)]
pub struct Frame<'a> {
    pub op: u8,
    pub thin: bool,
    pub a: u64,
    pub b: u64,
    pub input: &'a [u8],
}

// An encoder's input.
#[derive(Clone, Copy)]
pub struct Fields<'a> {
    pub record_type: u8,
    pub instance_id: [u8; 16],
    pub epoch: Epoch,
    pub sequence: Sequence,
    pub payload: &'a [u8],
}

impl<'a> Frame<'a> {
    // An encoder's input; none where it is too short.
    // Internal: serves the comparison with the Rust, which states nothing of it.
    pub fn fields(self) -> Option<Fields<'a>> {
        let (&[record_type], rest) = self.input.split_first_chunk::<1>()?;
        let (instance_id, rest) = rest.split_first_chunk::<16>()?;
        let (epoch, rest) = rest.split_first_chunk::<8>()?;
        let (sequence, payload) = rest.split_first_chunk::<8>()?;
        Some(Fields {
            record_type,
            instance_id: *instance_id,
            epoch: Epoch(u64::from_le_bytes(*epoch)),
            sequence: Sequence(u64::from_le_bytes(*sequence)),
            payload,
        })
    }

    // The value of an operation that writes.
    // Internal: serves the comparison with the Rust, which states nothing of it.
    pub fn value(self) -> u32 {
        (self.a & 0xffff_ffff) as u32
    }

    // The position in the output.
    // Internal: serves the comparison with the Rust, which states nothing of it.
    pub fn at(self) -> usize {
        self.b as usize
    }

    // The stage of a call, in the area from a place on.
    // Internal: serves the comparison with the Rust, which states nothing of it.
    pub fn stage(self, memory: &mut [u8], from: usize) -> &mut [u8] {
        lent(memory, from, self.a)
    }

    // The output of a call.
    // Internal: serves the comparison with the Rust, which states nothing of it.
    pub fn output(self, memory: &mut [u8]) -> &mut [u8] {
        lent(memory, OUTPUT, self.a >> 32)
    }
}

// The first bytes of an area.
fn lent(memory: &mut [u8], from: usize, count: u64) -> &mut [u8] {
    let size = AREA.min(count as usize);
    memory
        .get_mut(from..from.saturating_add(size))
        .unwrap_or_default()
}

// The frames that are left of a block.
#[derive(Drop)]
pub struct Frames<'a> {
    rest: &'a [u8],
    thin: bool,
}

impl<'a> Frames<'a> {
    // The frames of a block.
    // Internal: serves the comparison with the Rust, which states nothing of it.
    pub fn new(calls: &'a [u8], thin: bool) -> Frames<'a> {
        Frames { rest: calls, thin }
    }
}

impl<'a> Iterator for Frames<'a> {
    type Item = Frame<'a>;

    ghost remaining = { λ s. at_most (length s.rest.now) };

    fn next(&mut self) -> Option<Frame<'a>> {
        let (&[op, _, _, _], rest) = self.rest.split_first_chunk::<4>()?;
        let (size, rest) = rest.split_first_chunk::<4>()?;
        let (a, rest) = rest.split_first_chunk::<8>()?;
        let (b, rest) = rest.split_first_chunk::<8>()?;
        let (input, rest) = rest.split_at_checked(u32::from_le_bytes(*size) as usize)?;
        if op == 0 {
            return None;
        }
        self.rest = rest;
        Some(Frame {
            op,
            thin: self.thin,
            a: u64::from_le_bytes(*a),
            b: u64::from_le_bytes(*b),
            input,
        })
    }
}
