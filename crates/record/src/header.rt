// The checks of a record's header (01, 1 to 6), whole and as short tests.
ghost use Rattle.std.specs.Prelude.{◌≡◌, ◌&&◌, eqb};
ghost use Rattle.wire.specs.Refusals.{checked, first, passes};
ghost use Rattle.wire.specs.Header.{type_of};
ghost use Rattle.record.specs.Types.{code_of};
ghost use Rattle.record.specs.Record.{rest_rows, header_checks};

use crate::checks::{check_bootstrap, check_length};
use crate::types::RecordType;
use outer::is_outer;
use wire::errors::RecordError;
use wire::fields;
use wire::header::{OUTER_MAGIC, OUTER_VERSION};

// The checks that follow the type's: 4, 5, 6.
#[tactic(auto, using(std::proofs::lemmas::Bool::Decides::nat_tests, wire::proofs::Rows::record_refuses), unfolding(wire::specs::Refusals::first))]
fn check_rest(header: &[u8; 44], record_type: RecordType) -> Result<(), RecordError>
    ensures { checked result ≡ first (rest_rows (code_of record_type) header.now) }
{
    let flags = fields::flags(header);
    if flags != 0 {
        return Err(RecordError::Flags(flags));
    }
    check_length(record_type, fields::length(header) as usize)?;
    check_bootstrap(
        record_type,
        fields::instance_id(header),
        fields::epoch(header),
        fields::sequence(header),
    )
}

// The header checks, 1 to 6. DATA, the most frequent type, is tested first. An unknown code leaves
// with 3 before the flags are read.
#[tactic(auto, using(std::proofs::lemmas::Bool::Decides::nat_tests, wire::proofs::Headers::magic_read, crate::proofs::TypesCases::known_code), unfolding(wire::specs::Refusals::first, crate::specs::Record::header_checks))]
pub fn check_header(header: &[u8; 44]) -> Result<(), RecordError>
    ensures { checked result ≡ header_checks header.now }
{
    if is_data(header) {
        return Ok(());
    }
    let magic = fields::magic(header);
    if magic != u32::from_le_bytes(OUTER_MAGIC) {
        return Err(RecordError::Magic(magic));
    }
    let version = fields::version(header);
    if version != OUTER_VERSION {
        return Err(RecordError::Version(version));
    }
    let code = fields::record_type(header);
    let Some(record_type) = RecordType::from_code(code) else {
        return Err(RecordError::Type(code));
    };
    check_rest(header, record_type)
}

// Whether the header is one of DATA that passes the header checks.
#[tactic(auto, using(std::proofs::lemmas::Bool::Decides::nat_tests), unfolding(wire::specs::Refusals::first, crate::specs::Record::header_checks, outer::specs::Outer::outer_ok, crate::specs::Types::type_at))]
pub fn is_data(header: &[u8; 44]) -> bool
    ensures { result ≡ eqb (type_of header.now) 5 && passes (header_checks header.now) }
{
    is_outer(header)
        && fields::record_type(header) == RecordType::Data.code()
        && RecordType::Data.allows_length(fields::length(header) as usize)
}

// Whether the header checks pass.
pub fn header_ok(header: &[u8; 44]) -> bool
    ensures { result ≡ passes (header_checks header.now) }
{
    check_header(header).is_ok()
}
