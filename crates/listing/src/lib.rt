// The link listing (01): its state by value, whether it is sound (`reach`, `settle`), the line of
// names and the last line, and the lines of a piece (`list`).
#![tactic(auto)]

pub mod list;
mod reach;
mod settle;

ghost use Rattle.std.specs.Prelude.{◌≡◌};
ghost use Rattle.wire.specs.Refusals.{refused};
ghost use Rattle.outer.specs.Outer as outer;
ghost use Rattle.listing.specs.Steps.{fresh, sound_listing, names_of, end_of};

pub use crate::reach::LIMIT;
use crate::reach::reached;
use crate::settle::is_settled;
use parser::RecordParser;
use text::lines::{LINE, put_ending, put_names};
use wire::Refusal;
use wire::errors::{Error, RecordError};

// The record under way in its parser, its offset in the capture, and 01's open before it. Between
// records the parser has no byte of a header, and the figures of an error that it keeps are 0.
#[derive(Clone, Copy)]
pub struct Listing {
    pub parser: RecordParser,
    pub offset: u64,
    pub open: u64,
}

// What `listing::list::list` answers: the bytes taken of the piece, the bytes written at the start of
// the output, and the listing after it. An error of 1 to 9 is the capture's own, and ends it.
#[derive(Clone, Copy)]
pub struct Listed {
    pub answer: Result<(), Error>,
    pub taken: usize,
    pub written: usize,
    pub listing: Listing,
}

// The line of names.
#[tactic(auto, using(std::proofs::lemmas::Bool::Decides::nat_tests), unfolding(outer::specs::Outer::write, text::specs::Lines::put_text, wire::specs::Refusals::first))]
pub fn names(output: &mut [u8]) -> Result<usize, Error>
    ensures { outer.outcome (outer.written result) output.new ≡ names_of output.old }
{
    if output.len() < LINE {
        return Err(Error::ShortOutput);
    }
    Ok(put_names(output))
}

// The number of an error that ended a capture, 0 where none did.
fn number(error: Option<RecordError>) -> u64
    ensures { result ≡ (refused error).number }
{
    error.map_or(0, |error| Refusal::from(error).number)
}

impl Listing {
    // A listing at the start of a capture.
    pub fn new() -> Listing
        ensures { result ≡ fresh }
    {
        Listing {
            parser: RecordParser::new(),
            offset: 0,
            open: 0,
        }
    }

    // Whether the value is one that a listing can have (23).
    #[tactic(auto, unfolding(crate::specs::Steps::sound_listing, parser::specs::Push::counted))]
    pub fn is_sound(self) -> bool
        ensures { result ≡ sound_listing self }
    {
        let Ok(held) = self.parser.buffered() else {
            return false;
        };
        is_settled(self.parser) && reached(self.offset, self.open, held as u64, self.parser.error)
    }

    // The last line.
    #[tactic(auto, using(std::proofs::lemmas::Bool::Decides::nat_tests), unfolding(crate::specs::Steps::sound_listing, crate::specs::Steps::end_line, parser::specs::Push::counted, outer::specs::Outer::write, text::specs::Lines::put_text, wire::specs::Refusals::first))]
    pub fn end(self, output: &mut [u8]) -> Result<usize, Error>
        ensures { outer.outcome (outer.written result) output.new ≡ end_of self output.old }
    {
        if !self.is_sound() {
            return Err(Error::Unsound);
        }
        if output.len() < LINE {
            return Err(Error::ShortOutput);
        }
        let held = self.parser.buffered()?;
        Ok(put_ending(output, self.offset, number(self.parser.error), held as u64))
    }
}
