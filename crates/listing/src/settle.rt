// What a listing keeps of its parser, so that a listing which no calls leave can be told (23).
ghost use Rattle.std.specs.Prelude.{◌≡◌, drop, Some};
ghost use Rattle.wire.specs.Refusals.{refusal, record_refusal, refused};
ghost use Rattle.record.specs.Record.{all_zero};
ghost use Rattle.parser.specs.Push.{latch};
ghost use Rattle.listing.specs.Settled.{settled, number_only, is_settled};

use outer::OUTER_HEADER_LEN;
use parser::RecordParser;
use wire::errors::RecordError;

// What a listing keeps of an error that ended the capture: which of 1 to 9 it is, its figures 0.
#[tactic(auto, unfolding(parser::specs::Push::latch))]
fn bare(error: RecordError) -> RecordError
    ensures { Some result ≡ latch (refusal (record_refusal error).number 0 0 0) }
{
    match error {
        RecordError::Magic(_) => RecordError::Magic(0),
        RecordError::Version(_) => RecordError::Version(0),
        RecordError::Type(_) => RecordError::Type(0),
        RecordError::Flags(_) => RecordError::Flags(0),
        RecordError::Length { .. } => RecordError::Length {
            record_type: 0,
            length: 0,
        },
        RecordError::BootstrapIdentity(_) => RecordError::BootstrapIdentity(0),
        RecordError::ErrorCode(_) => RecordError::ErrorCode(0),
        RecordError::ReceiveWindow(_) => RecordError::ReceiveWindow(0),
        RecordError::Credit(_) => RecordError::Credit(0),
    }
}

// What a listing keeps of a parser: between records no byte of a header, and an error with its
// figures 0.
#[tactic(auto, using(std::proofs::lemmas::Bool::Decides::nat_tests), unfolding(crate::specs::Settled::settled, parser::specs::Push::latch))]
pub(crate) fn settle(parser: RecordParser) -> RecordParser
    ensures { result ≡ settled parser }
{
    if parser.header_len != 0 {
        return parser;
    }
    RecordParser {
        error: parser.error.map(bare),
        ..RecordParser::new()
    }
}

// Whether the figures of an error are 0.
#[tactic(auto, using(std::proofs::lemmas::Bool::Decides::nat_tests), unfolding(crate::specs::Settled::number_only, record::specs::Record::all_zero, parser::specs::Push::latch))]
fn is_number(error: Option<RecordError>) -> bool
    ensures { result ≡ number_only (refused error) }
{
    error == error.map(bare)
}

// Whether the bytes of a header are all zero from an index on.
fn zero_from(header: [u8; 44], from: usize) -> bool
    ensures { result ≡ all_zero (drop «from» header) }
{
    header[from.min(OUTER_HEADER_LEN)..]
        .iter()
        .all(|byte| *byte == 0)
}

// Whether no more of a parser is kept than a listing keeps.
#[tactic(auto, unfolding(crate::specs::Settled::is_settled))]
pub(crate) fn is_settled(parser: RecordParser) -> bool
    ensures { result ≡ is_settled parser }
{
    is_number(parser.error) && zero_from(parser.header, parser.header_len)
}
