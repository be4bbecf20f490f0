// The link listing (01) made a piece at a time: the lines of the records that a piece completes.
ghost use Rattle.std.specs.Prelude.{◌≡◌, true, ◌+◌, ◌-◌, ◌^◌, ◌≤◌, ◌<◌, min, length, drop};
ghost use Rattle.wire.specs.Refusals.{verdict, first};
ghost use Rattle.record.specs.Types.{code_of};
ghost use Rattle.text.specs.Decimal.{placed};
ghost use Rattle.text.specs.Lines.{put_text};
ghost use Rattle.listing.specs.Reach.{limit};
ghost use Rattle.listing.specs.Settled.{settled};
ghost use Rattle.listing.specs.Listing.{open_after};
ghost use Rattle.listing.specs.Steps.{listing_of, read_of, sound_listing, listed, told, answered, line_of, after_record, Ready, step_of, further, lines, list_rows, list_of, outcome};

use crate::reach::LIMIT;
use crate::settle::settle;
use crate::{Listed, Listing};
use outer::OUTER_MAX_PAYLOAD;
use outer::payloads::value;
use parser::push::push;
use parser::{Pushed, RecordParser, payload};
use record::Record;
use record::types::RecordType;
use text::lines::{LINE, Line};
use wire::errors::Error;

// Nothing is taken and nothing is written.
fn still(listing: Listing, answer: Result<(), Error>) -> Listed
    ensures { answered result ≡ listed (verdict answer) 0 0 listing }
{
    Listed {
        answer,
        taken: 0,
        written: 0,
        listing,
    }
}

// Open as it stands after a record. A CREDIT takes off its value, or all of open if that is less.
#[tactic(auto, unfolding(crate::specs::Listing::open_after))]
fn open_after(open: u64, record: Record, payload: &[u8]) -> u64
    requires { «open» + «record».length < 2 ^ 64 }
    ensures { result ≡ open_after «open» (code_of «record».record_type) «record».length payload.now }
{
    match record.record_type {
        RecordType::Reset => 0,
        RecordType::Data => open + record.length as u64,
        RecordType::Credit => open.saturating_sub(value(payload).into()),
        _ => open,
    }
}

// A record is complete: puts its line, and answers the place after it. The listing is then at the next
// record, with a new parser.
#[tactic(auto, unfolding(crate::specs::Steps::line_of))]
fn record_line(
    listing: &mut Listing,
    record: Record,
    payload: &[u8],
    output: &mut [u8],
    at: usize,
) -> usize
    requires { (listing.old.«open» ≤ listing.old.offset) × (listing.old.offset + (44 + «record».length) < 2 ^ 64) }
    ensures next { listing.new ≡ after_record listing.old «record» payload.now }
    ensures line { placed result output.new ≡ put_text output.old at (line_of listing.old «record» payload.now) }
{
    let offset = listing.offset;
    let open = open_after(listing.open, record, payload);
    let line = Line {
        offset,
        code: record.record_type.code().into(),
        epoch: record.epoch.0,
        sequence: record.sequence.0,
        size: record.length as u64,
        open,
    };
    listing.parser = RecordParser::new();
    listing.offset = offset + (44 + record.length as u64);
    listing.open = open;
    line.put(output, at)
}

// No record is complete, so there is no line: `parser` is what the push left.
fn no_line(done: &mut Listed, answer: Result<(), Error>, parser: RecordParser) -> Result<(), Error>
    ensures { told result done.new ≡ listed (verdict answer) done.old.taken done.old.written (listing_of (settled parser) done.old.listing.offset done.old.listing.«open») }
{
    done.listing.parser = settle(parser);
    answer
}

// One push, and the line of the record that it completes. Adds it to `done`; the caller stores its
// answer.
fn step(done: &mut Listed, piece: &[u8], stage: &mut [u8], output: &mut [u8]) -> Result<(), Error>
    requires { Ready done.old.listing piece.now output.old done.old.taken done.old.written }
    ensures { outcome (told result done.new) stage.new output.new ≡ further done.old.taken (step_of done.old.listing (drop done.old.taken piece.now) stage.old output.old done.old.written) }
{
    let rest = &piece[done.taken..];
    let Pushed { answer, parser } = push(done.listing.parser, rest, stage);
    match answer {
        Ok(progress) => {
            done.taken += progress.consumed;
            match progress.complete {
                Some(complete) => {
                    let record = complete.record;
                    let bytes = payload(rest, stage, complete.place, record.length);
                    done.written = record_line(
                        &mut done.listing,
                        record,
                        bytes,
                        output,
                        done.written,
                    );
                    Ok(())
                }
                None => no_line(done, Ok(()), parser),
            }
        }
        Err(error) => no_line(done, Err(error), parser),
    }
}

// Record by record, while bytes are left, nothing is refused and the output has room for a line.
fn list_records(listing: Listing, piece: &[u8], stage: &mut [u8], output: &mut [u8]) -> Listed
    requires { Ready listing piece.now output.old 0 0 }
    ensures { outcome (answered result) stage.new output.new ≡ lines (length piece.now) listing piece.now stage.old output.old 0 0 }
{
    let last = output.len() - LINE;
    let mut done = still(listing, Ok(()));
    // Each turn takes what one push took, so no iterator walks the piece.
    while done.taken < piece.len() {
        if last < done.written {
            return done;
        }
        done.answer = step(&mut done, piece, stage, output);
        if done.answer.is_err() {
            return done;
        }
    }
    done
}

// How many of `size` bytes more are read before reading ends.
#[tactic(auto, using(std::proofs::lemmas::Bool::Decides::nat_tests), unfolding(crate::specs::Steps::sound_listing, parser::specs::Push::counted))]
fn room(listing: Listing, size: usize) -> usize
    requires { sound_listing listing ≡ true }
    ensures { result ≡ min (limit - read_of listing) size }
{
    // A sound parser answers, so that the 0 is never given.
    let Ok(held) = listing.parser.buffered() else {
        return 0;
    };
    size.min((LIMIT - (listing.offset + held as u64)) as usize)
}

// What stops the listing of a piece: 23, 21, 22, or the error that ended the capture.
#[tactic(auto, using(std::proofs::lemmas::Bool::Decides::nat_tests), unfolding(wire::specs::Refusals::first))]
fn ready(listing: Listing, stage: &[u8], output: &[u8]) -> Result<(), Error>
    ensures { verdict result ≡ first (list_rows listing stage.now output.now) }
{
    if !listing.is_sound() {
        return Err(Error::Unsound);
    }
    if stage.len() < OUTER_MAX_PAYLOAD {
        return Err(Error::ShortStage);
    }
    if output.len() < LINE {
        return Err(Error::ShortOutput);
    }
    listing.parser.latched()
}

// Takes the next piece of the capture, and writes the lines of the records that it completes at
// the output's start, as many as fit. What is not taken is to be given again, unless reading
// has ended. The stage is the parser's: payload bytes that come in several pieces lie in it.
#[tactic(auto, using(std::proofs::lemmas::Bool::Decides::nat_tests, wire::proofs::Rows::refuses, std::proofs::lemmas::List::take_min, crate::proofs::Lines::list_ready), unfolding(crate::specs::Steps::list_of, wire::specs::Refusals::first))]
pub fn list(listing: Listing, piece: &[u8], stage: &mut [u8], output: &mut [u8]) -> Listed
    ensures { outcome (answered result) stage.new output.new ≡ list_of listing piece.now stage.old output.old }
{
    match ready(listing, stage, output) {
        Ok(()) => {
            let n = room(listing, piece.len());
            list_records(listing, &piece[..n], stage, output)
        }
        Err(error) => still(listing, Err(error)),
    }
}
