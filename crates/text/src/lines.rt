// The listing's lines, put into a lent buffer. Each answers the place after it; where a line has no
// room nothing is put, and the answer is the place itself.
ghost use Rattle.std.specs.Prelude.{◌≡◌, ◌+◌, length, leb};
ghost use Rattle.text.specs.Decimal.{placed};
ghost use Rattle.text.specs.Lines.{names, line, ending, line_room, put_text};

use crate::{put, put_number, put_spaced};

// The room that a line may take: six numbers of up to 20 digits, and a byte after each.
pub const LINE: usize = 126;

// Whether a line has room at a place.
fn has_room(output: &[u8], at: usize) -> bool
    ensures { result ≡ leb (at + line_room) (length output.now) }
{
    LINE <= output.len() && at <= output.len() - LINE
}

// A record's line: its byte offset, type, epoch, sequence and payload length, and open as it stands
// after the record.
#[derive(Clone, Copy)]
pub struct Line {
    pub offset: u64,
    pub code: u64,
    pub epoch: u64,
    pub sequence: u64,
    pub size: u64,
    pub open: u64,
}

impl Line {
    // The line, at a place.
    pub fn put(self, output: &mut [u8], at: usize) -> usize
        ensures { placed result output.new ≡ put_text output.old at (line self.offset self.code self.epoch self.sequence self.size self.«open») }
    {
        if !has_room(output, at) {
            return at;
        }
        let numbers = [self.offset, self.code, self.epoch, self.sequence, self.size];
        let next = put_spaced(output, at, &numbers);
        put_number(output, next, self.open, b'\n')
    }
}

// The last line, at the start of the buffer.
pub fn put_ending(output: &mut [u8], offset: u64, refusal: u64, unfinished: u64) -> usize
    ensures { placed result output.new ≡ put_text output.old 0 (ending offset refusal unfinished) }
{
    if !has_room(output, 0) {
        return 0;
    }
    let next = put(output, 0, b"end ");
    let next = put_spaced(output, next, &[offset, refusal]);
    put_number(output, next, unfinished, b'\n')
}

// The line of names, at the start of the buffer.
#[tactic(auto, using(std::proofs::lemmas::Bool::Decides::nat_tests), unfolding(crate::specs::Lines::put_text, crate::specs::Lines::names))]
pub fn put_names(output: &mut [u8]) -> usize
    ensures { placed result output.new ≡ put_text output.old 0 names }
{
    if !has_room(output, 0) {
        return 0;
    }
    put(output, 0, b"at type epoch sequence length open\n")
}
