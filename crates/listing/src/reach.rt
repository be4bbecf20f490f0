// Whether the counts of a listing are those that some capture leaves.
ghost use Rattle.std.specs.Prelude.{◌≡◌, ◌+◌, ◌≤◌, leb};
ghost use Rattle.wire.specs.Refusals.{refused};
ghost use Rattle.listing.specs.Reach.{limit, data_needed, others, adds_up, refused_bytes, reached};

use wire::errors::RecordError;

// Reading ends here as at the end of the input: 2^62 bytes.
pub const LIMIT: u64 = 4611686018427387904;

// The fewest DATA records that leave `open`.
fn data_needed(open: u64) -> u64
    ensures { result ≡ data_needed «open» }
{
    open.div_ceil(65536)
}

// Whether other records can take `rest` bytes, where those DATA could carry `room` bytes more.
#[tactic(auto, using(std::proofs::lemmas::Bool::Decides::nat_tests), unfolding(crate::specs::Reach::others))]
fn others(room: u64, rest: u64) -> bool
    ensures { result ≡ others room rest }
{
    rest == 0 || rest == 44 || rest == 76 || 88 <= rest || 48 <= rest && rest - 48 <= room
}

// Whether whole records can have `offset` bytes and leave `open`.
#[tactic(auto, using(std::proofs::lemmas::Bool::Decides::nat_tests), unfolding(crate::specs::Reach::adds_up))]
fn adds_up(offset: u64, open: u64) -> bool
    requires { offset ≤ limit }
    ensures { result ≡ adds_up offset «open» }
{
    if offset < open {
        return false;
    }
    let needed = data_needed(open);
    let bytes = open + 44 * needed;
    bytes <= offset && others(65536 * needed - open, offset - bytes)
}

// The bytes of a refused record that were read: its header, or its header and its value.
#[tactic(auto, unfolding(crate::specs::Reach::refused_bytes))]
fn refused_bytes(error: Option<RecordError>) -> u64
    ensures { result ≡ refused_bytes (refused error).number }
{
    error.map_or(0, |error| match error {
        RecordError::ErrorCode(_) | RecordError::ReceiveWindow(_) | RecordError::Credit(_) => 48,
        _ => 44,
    })
}

// Whether at most 2^62 bytes were read.
#[tactic(auto, using(std::proofs::lemmas::Bool::Decides::nat_tests))]
fn within_limit(offset: u64, held: u64, refused: u64) -> bool
    ensures { result ≡ leb ((offset + held) + refused) limit }
{
    offset <= LIMIT && held <= LIMIT - offset && refused <= LIMIT - offset - held
}

// Whether some capture leaves these counts: whole records of `offset` bytes that leave `open`, then
// `held` bytes of a record under way, or a record that was refused.
pub(crate) fn reached(offset: u64, open: u64, held: u64, error: Option<RecordError>) -> bool
    ensures { result ≡ reached offset «open» held (refused error).number }
{
    within_limit(offset, held, refused_bytes(error)) && adds_up(offset, open)
}
