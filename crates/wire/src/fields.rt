// The fields of a header's 44 bytes, each read at its place. The readers are alike: each has its
// field's name and type, as in the Rust, over one `field`.
#![tactic(auto, using(crate::proofs::NumberLaws::reading), unfolding(crate::specs::Header::magic_of, crate::specs::Header::version_of, crate::specs::Header::type_of, crate::specs::Header::flags_of, crate::specs::Header::instance_of, crate::specs::Header::epoch_of, crate::specs::Header::sequence_of, crate::specs::Header::length_of,))]

ghost use Rattle.std.specs.Prelude.{◌≡◌, ◌+◌, ◌≤◌};
ghost use Rattle.wire.specs.Bytes.{bytes_at};
ghost use Rattle.wire.specs.Header.{magic_of, version_of, type_of, flags_of, instance_of, epoch_of, sequence_of, length_of};

use crate::{Epoch, Sequence};

// The `N` bytes of a header from an index on.
fn field<const N: usize>(header: &[u8; 44], at: usize) -> [u8; N]
    requires { at + N ≤ 44 }
    ensures { result ≡ bytes_at at N header.now }
{
    let mut bytes = [0u8; N];
    bytes.copy_from_slice(&header[at..at + N]);
    bytes
}

pub fn magic(header: &[u8; 44]) -> u32
    ensures { result ≡ magic_of header.now }
{
    u32::from_le_bytes(field(header, 0))
}

pub fn version(header: &[u8; 44]) -> u16
    ensures { result ≡ version_of header.now }
{
    u16::from_le_bytes(field(header, 4))
}

pub fn record_type(header: &[u8; 44]) -> u8
    ensures { result ≡ type_of header.now }
{
    header[6]
}

pub fn flags(header: &[u8; 44]) -> u8
    ensures { result ≡ flags_of header.now }
{
    header[7]
}

pub fn instance_id(header: &[u8; 44]) -> [u8; 16]
    ensures { result ≡ instance_of header.now }
{
    field(header, 8)
}

pub fn epoch(header: &[u8; 44]) -> Epoch
    ensures { result.0 ≡ epoch_of header.now }
{
    Epoch(u64::from_le_bytes(field(header, 24)))
}

pub fn sequence(header: &[u8; 44]) -> Sequence
    ensures { result.0 ≡ sequence_of header.now }
{
    Sequence(u64::from_le_bytes(field(header, 32)))
}

// The payload's length as the header says it.
pub fn length(header: &[u8; 44]) -> u32
    ensures { result ≡ length_of header.now }
{
    u32::from_le_bytes(field(header, 40))
}
