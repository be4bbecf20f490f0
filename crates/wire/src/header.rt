// A header's 44 bytes, written (outer.rs). `fields` reads them.
ghost use Rattle.std.specs.Prelude.{◌≡◌, ◌+◌, ◌≤◌};
ghost use Rattle.wire.specs.Bytes.{overlay};
ghost use Rattle.wire.specs.Header.{header_bytes};

use crate::{Epoch, Sequence};

// Magic of every outer record.
pub const OUTER_MAGIC: [u8; 4] = [0x4E, 0x56, 0x58, 0x53];
// Version of the outer record format.
pub const OUTER_VERSION: u16 = 1;

// Puts the `N` bytes of a field into a header from an index on. They come by value, for speed: of a
// reference the compiler would have to test whether it overlaps the header.
#[tactic(auto, using(crate::proofs::Overlays::put_overlay))]
fn put<const N: usize>(header: &mut [u8; 44], at: usize, bytes: [u8; N])
    requires { at + N ≤ 44 }
    ensures { header.new ≡ overlay header.old at bytes.entry }
{
    header[at..at + N].copy_from_slice(&bytes);
}

// Returns the header of a record. It checks nothing.
#[tactic(auto, using(crate::proofs::Headers::writing), unfolding(crate::specs::Header::header_bytes))]
pub fn encode_header(
    record_type: u8,
    instance_id: [u8; 16],
    epoch: Epoch,
    sequence: Sequence,
    length: u32,
) -> [u8; 44]
    ensures { result ≡ header_bytes record_type instance_id epoch.0 sequence.0 length }
{
    let mut header = [0u8; 44];
    put(&mut header, 0, OUTER_MAGIC);
    put(&mut header, 4, OUTER_VERSION.to_le_bytes());
    // The flags, after the type, are zero.
    put(&mut header, 6, [record_type, 0]);
    put(&mut header, 8, instance_id);
    put(&mut header, 24, epoch.0.to_le_bytes());
    put(&mut header, 32, sequence.0.to_le_bytes());
    put(&mut header, 40, length.to_le_bytes());
    header
}
