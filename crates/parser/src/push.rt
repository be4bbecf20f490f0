// An incremental parser's push: bytes come in pieces of any size, and each record is handed over
// with its last byte. Payload bytes that come in several pushes lie in a stage that the caller lends.
ghost use Rattle.std.specs.Prelude.{◌≡◌, true, eqb, ◌+◌, ◌^◌, ◌≤◌, ◌<◌, length, take};
ghost use Rattle.wire.specs.Bytes.{copied};
ghost use Rattle.wire.specs.Refusals.{record_refusal, verdict, pick, first, passes};
ghost use Rattle.wire.specs.Header.{length_of};
ghost use Rattle.record.specs.Record.{header_checks};
ghost use Rattle.parser.specs.Push.{waiting, failed, finish, push_body, body_stage, head_with, push_head, head_stage, push_rows, push_of, pushed, outcome};

use crate::{Complete, Place, Progress, Pushed, RecordParser, payload};
use outer::{OUTER_HEADER_LEN, OUTER_MAX_PAYLOAD};
use record::checks::check_payload;
use record::codec::record_of;
use record::header::check_header;
use wire::copying::copy_at;
use wire::errors::{Error, RecordError};
use wire::fields;
use wire::parts::filled;

// No record yet.
fn wait(header: [u8; 44], header_len: usize, payload_len: usize, consumed: usize) -> Pushed
    ensures { pushed result ≡ waiting header header_len payload_len consumed }
{
    Pushed {
        answer: Ok(Progress {
            consumed,
            complete: None,
        }),
        parser: RecordParser {
            header,
            header_len,
            payload_len,
            error: None,
        },
    }
}

// The error is latched.
#[tactic(auto, using(crate::proofs::Latches::latching))]
fn fail(header: [u8; 44], error: RecordError) -> Pushed
    ensures { pushed result ≡ failed header (record_refusal error) }
{
    Pushed {
        answer: Err(Error::Record(error)),
        parser: RecordParser {
            header,
            header_len: 0,
            payload_len: 0,
            error: Some(error),
        },
    }
}

// The payload is whole: 8, 9, 7, or the record.
#[tactic(auto, using(wire::proofs::Rows::record_refuses, crate::proofs::Cases::type_code), unfolding(crate::specs::Push::finish))]
fn finished(header: [u8; 44], payload: &[u8], consumed: usize, place: Place) -> Pushed
    requires { passes (header_checks header) ≡ true }
    ensures { pushed result ≡ (finish header payload.now consumed place).answer }
{
    let record = record_of(&header);
    match check_payload(record.record_type, payload) {
        Ok(()) => Pushed {
            answer: Ok(Progress {
                consumed,
                complete: Some(Complete { record, place }),
            }),
            parser: RecordParser {
                header,
                header_len: 0,
                payload_len: 0,
                error: None,
            },
        },
        Err(error) => fail(header, error),
    }
}

// Stores the last bytes of a payload, unless they are its first too.
fn store_last(before: usize, last: &[u8], stage: &mut [u8])
    ensures { stage.new ≡ pick (eqb before 0) stage.old (copied stage.old before last.now) }
{
    if before == 0 {
        return;
    }
    copy_at(stage, before, last);
}

// Where a payload lies of which `before` bytes had come, and whose last ones lie from `from` on.
fn place_of(before: usize, from: usize) -> Place
    ensures { result ≡ pick (eqb before 0) (Place.Piece from) Place.Stage }
{
    if before != 0 {
        return Place::Stage;
    }
    Place::Piece(from)
}

// The payload step: `before` bytes of the payload have come, and `rest` is the piece from its index
// `from` on. What holds of stage and counts is a condition of each step, since both are the caller's
// (01: any lengths, any session value). An array of the stage's first 65,536 bytes would carry its
// length, but each rule speaks of the whole stage, so that each would need a law about the bytes
// behind: no plainer. The index's is that `rest` is `piece[from..]`, whose end fits.
#[tactic(auto, using(std::proofs::lemmas::Bool::Decides::nat_tests, crate::proofs::Cases::length_low, wire::proofs::Overlays::copied_fits, wire::proofs::Overlays::take_laid), unfolding(crate::specs::Push::push_body, crate::specs::Push::body_stage))]
fn payload_step(
    header: [u8; 44],
    before: usize,
    rest: &[u8],
    from: usize,
    stage: &mut [u8],
) -> Pushed
    requires { (passes (header_checks header) ≡ true) × (before ≤ length_of header) × (65536 ≤ length stage.old) × (from + length rest.now < 2 ^ 64) }
    ensures { outcome (pushed result) stage.new ≡ outcome (push_body header before (take before stage.old) rest.now from).answer (body_stage header before rest.now stage.old) }
{
    let size = fields::length(&header) as usize;
    let n = (size - before).min(rest.len());
    let taken = &rest[0..n];
    let end = from + n;
    let come = before + n;
    if come < size {
        copy_at(stage, before, taken);
        return wait(header, OUTER_HEADER_LEN, come, end);
    }
    store_last(before, taken, stage);
    let place = place_of(before, from);
    let bytes = payload(rest, stage, place_of(before, 0), size);
    finished(header, bytes, end, place)
}

// Byte 44 has come: the header checks, and the rest of the piece to the payload step. While a header
// is held `before` bytes of its payload have come.
fn checked(header: [u8; 44], before: usize, rest: &[u8], from: usize, stage: &mut [u8]) -> Pushed
    requires { (before ≤ length_of header) × (65536 ≤ length stage.old) × (from + length rest.now < 2 ^ 64) }
    ensures { outcome (pushed result) stage.new ≡ pick (passes (header_checks header)) (outcome (push_body header before (take before stage.old) rest.now from).answer (body_stage header before rest.now stage.old)) (outcome (failed header (header_checks header)) stage.old) }
{
    match check_header(&header) {
        Ok(()) => payload_step(header, before, rest, from, stage),
        Err(error) => fail(header, error),
    }
}

// The header step.
#[tactic(auto, using(std::proofs::lemmas::Bool::Decides::nat_tests, std::proofs::lemmas::Grind::common_steps, wire::proofs::Overlays::copied_fits), unfolding(crate::specs::Push::push_head, crate::specs::Push::head_stage, crate::specs::Push::head_with))]
fn header_step(
    header: [u8; 44],
    had: usize,
    before: usize,
    piece: &[u8],
    stage: &mut [u8],
) -> Pushed
    requires { (had ≤ 44) × (before ≤ length_of (head_with header had piece.now)) × (65536 ≤ length stage.old) }
    ensures { outcome (pushed result) stage.new ≡ outcome (push_head header had before (take before stage.old) piece.now).answer (head_stage header had before piece.now stage.old) }
{
    let n = (OUTER_HEADER_LEN - had).min(piece.len());
    let bytes = filled(header, had, &piece[0..n]);
    let come = had + n;
    if come < OUTER_HEADER_LEN {
        return wait(bytes, come, 0, n);
    }
    checked(bytes, before, &piece[n..], n, stage)
}

// What stops a push: 23, 21, or the latched error.
#[tactic(auto, using(std::proofs::lemmas::Bool::Decides::nat_tests), unfolding(wire::specs::Refusals::first))]
fn ready(parser: RecordParser, room: usize) -> Result<(), Error>
    ensures { verdict result ≡ first (push_rows parser room) }
{
    if !parser.is_sound() {
        return Err(Error::Unsound);
    }
    if room < OUTER_MAX_PAYLOAD {
        return Err(Error::ShortStage);
    }
    parser.latched()
}

// Takes bytes of the piece up to the end of one record and no further. The stage holds payload
// bytes that come in several pushes.
#[tactic(auto, using(std::proofs::lemmas::Bool::Decides::nat_tests, wire::proofs::Rows::refuses, crate::proofs::Cases::sound_count, crate::proofs::Cases::sound_room), unfolding(wire::specs::Refusals::first, crate::specs::Push::push_of, crate::specs::Push::push, crate::specs::Push::push_stage))]
pub fn push(parser: RecordParser, piece: &[u8], stage: &mut [u8]) -> Pushed
    ensures { outcome (pushed result) stage.new ≡ push_of parser piece.now stage.old }
{
    match ready(parser, stage.len()) {
        Ok(()) => header_step(
            parser.header,
            parser.header_len,
            parser.payload_len,
            piece,
            stage,
        ),
        Err(error) => Pushed {
            answer: Err(error),
            parser,
        },
    }
}
