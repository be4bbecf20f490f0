// The incremental parser of an NVXS byte stream (the second half of nvxs/record.rs): its value,
// whether it is sound and what it answers when asked, and the payload of a complete record.
// `push` has the push.
#![tactic(auto)]

pub mod push;

ghost use Rattle.std.specs.Prelude.{◌≡◌, ◌&&◌, eqb, ltb, ◌+◌};
ghost use Rattle.wire.specs.Header.{length_of};
ghost use Rattle.wire.specs.Refusals.{refused, verdict, first};
ghost use Rattle.parser.specs.Push.{fresh, counts_ok, error_ok, sound_parser, latched, clear, payload_at, needed_of, buffered_of, count_of, counted, end_rows};

use outer::OUTER_HEADER_LEN;
use record::Record;
use record::header::{header_ok, is_data};
use wire::errors::{Error, RecordError};
use wire::fields;
use wire::parts::part;

// The record in progress: its header bytes beside the counts of header and payload bytes that have
// come (01's form: "parser struct holds the 44-byte header array beside its counts, passed by value"),
// and the error that ended the stream.
#[derive(Clone, Copy)]
pub struct RecordParser {
    pub header: [u8; 44],
    pub header_len: usize,
    pub payload_len: usize,
    pub error: Option<RecordError>,
}

// Where a payload lies: in the piece from an index on, or at the start of the stage.
#[derive(Clone, Copy, Debug, PartialEq, Eq)]
pub enum Place {
    Piece(usize),
    Stage,
}

// A complete record, and where its payload lies.
#[derive(Clone, Copy)]
pub struct Complete {
    pub record: Record,
    pub place: Place,
}

// What a push has done: the bytes of the piece that it took, and the record that they complete.
#[derive(Clone, Copy)]
pub struct Progress {
    pub consumed: usize,
    pub complete: Option<Complete>,
}

// What a push answers, with the parser after it.
#[derive(Clone, Copy)]
pub struct Pushed {
    pub answer: Result<Progress, Error>,
    pub parser: RecordParser,
}

// Whether the counts fit the header bytes.
#[tactic(auto, using(std::proofs::lemmas::Bool::Decides::nat_tests), unfolding(crate::specs::Push::counts_ok))]
fn counts_ok(header: &[u8; 44], header_len: usize, payload_len: usize) -> bool
    ensures { result ≡ counts_ok header.now header_len payload_len }
{
    if header_len == OUTER_HEADER_LEN {
        return header_ok(header) && payload_len < fields::length(header) as usize;
    }
    header_len < OUTER_HEADER_LEN && payload_len == 0
}

// Whether a latched error, one of 1 to 9, goes with count 0.
#[tactic(auto, using(std::proofs::lemmas::Bool::Decides::nat_tests, crate::proofs::Latches::low), unfolding(crate::specs::Push::error_ok))]
fn error_ok(error: Option<RecordError>, header_len: usize) -> bool
    ensures { result ≡ error_ok (refused error).number header_len }
{
    error.is_none() || header_len == 0
}

impl RecordParser {
    // A parser at the start of a stream.
    pub fn new() -> RecordParser
        ensures { result ≡ fresh }
    {
        RecordParser {
            header: [0u8; 44],
            header_len: 0,
            payload_len: 0,
            error: None,
        }
    }

    // Whether the value is one that a parser can have (01, 23).
    #[tactic(auto, unfolding(crate::specs::Push::sound_parser))]
    pub fn is_sound(self) -> bool
        ensures { result ≡ sound_parser self }
    {
        counts_ok(&self.header, self.header_len, self.payload_len)
            && error_ok(self.error, self.header_len)
    }

    // The error that the parser latched: what a push of it answers again.
    pub fn latched(self) -> Result<(), Error>
        ensures { verdict result ≡ latched self }
    {
        match self.error {
            Some(error) => Err(Error::Record(error)),
            None => Ok(()),
        }
    }

    // Whether the parser is sound with no error, and a header that it holds is one of DATA: the
    // commonest parsers, told by few tests.
    #[tactic(auto, using(std::proofs::lemmas::Bool::Decides::nat_tests), unfolding(crate::specs::Push::clear, crate::specs::Push::sound_parser, crate::specs::Push::counts_ok, crate::specs::Push::error_ok))]
    pub fn is_clear(self) -> bool
        ensures { result ≡ clear self }
    {
        if self.error.is_some() {
            return false;
        }
        if self.header_len != OUTER_HEADER_LEN {
            return self.header_len < OUTER_HEADER_LEN && self.payload_len == 0;
        }
        is_data(&self.header) && self.payload_len < fields::length(&self.header) as usize
    }

    // Whether so many bytes more leave the payload in progress unfinished. The push of such a piece
    // copies it to the stage, after the payload bytes that have come, and waits.
    pub fn stays_open(self, count: usize) -> bool
        ensures { result ≡ eqb self.header_len 44 && ltb (self.payload_len + count) (length_of self.header) }
    {
        let size = fields::length(&self.header) as usize;
        self.header_len == OUTER_HEADER_LEN && count < size.saturating_sub(self.payload_len)
    }

    // How many more bytes complete the header or the payload in progress.
    #[tactic(auto, using(std::proofs::lemmas::Bool::Decides::nat_tests), unfolding(crate::specs::Push::counted, crate::specs::Push::needed_of, crate::specs::Push::sound_parser, crate::specs::Push::counts_ok))]
    pub fn needed(self) -> Result<usize, Error>
        ensures { count_of result ≡ counted self (needed_of self) }
    {
        if !self.is_sound() {
            return Err(Error::Unsound);
        }
        if self.header_len != OUTER_HEADER_LEN {
            return Ok(OUTER_HEADER_LEN - self.header_len);
        }
        Ok(fields::length(&self.header) as usize - self.payload_len)
    }

    // The bytes of the partial record that the parser holds.
    #[tactic(auto, using(std::proofs::lemmas::Bool::Decides::nat_tests, crate::proofs::Cases::length_low), unfolding(crate::specs::Push::counted, crate::specs::Push::sound_parser, crate::specs::Push::counts_ok))]
    pub fn buffered(self) -> Result<usize, Error>
        ensures { count_of result ≡ counted self (buffered_of self) }
    {
        if !self.is_sound() {
            return Err(Error::Unsound);
        }
        Ok(self.header_len + self.payload_len)
    }

    // What the end of the stream finds: 23, or 19 with bytes of an unfinished record.
    #[tactic(auto, using(std::proofs::lemmas::Bool::Decides::nat_tests, wire::proofs::Rows::numbered), unfolding(wire::specs::Refusals::first, crate::specs::Push::counted))]
    pub fn ended(self) -> Result<(), Error>
        ensures { verdict result ≡ first (end_rows self) }
    {
        let buffered = self.buffered()?;
        if buffered != 0 {
            return Err(Error::Truncated { buffered });
        }
        Ok(())
    }
}

// The payload of a complete record, as a part of the piece or of the stage, both lent for reading
// after the push.
pub fn payload<'a>(piece: &'a [u8], stage: &'a [u8], place: Place, length: usize) -> &'a [u8]
    ensures { result.now ≡ payload_at place length piece.now stage.now }
{
    match place {
        Place::Piece(at) => part(piece, at, length),
        Place::Stage => part(stage, 0, length),
    }
}
