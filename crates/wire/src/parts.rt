// Parts of a piece: the header with a part of it, and the part itself.
ghost use Rattle.std.specs.Prelude.{◌≡◌, take, drop};
ghost use Rattle.wire.specs.Bytes.{copied};

use crate::copying::copy_at;

// The header with a part of a piece from an index on. Where it does not fit the header stays. A
// whole header is answered by itself: the compiler then knows its size, and makes two moves of it.
#[tactic(auto, using(crate::proofs::PartLaws::copied_whole))]
pub fn filled(header: [u8; 44], at: usize, part: &[u8]) -> [u8; 44]
    ensures { result ≡ copied header at part.now }
{
    let mut bytes = header;
    if at == 0 && part.len() == 44 {
        bytes.copy_from_slice(part);
        return bytes;
    }
    copy_at(&mut bytes, at, part);
    bytes
}

// The part of a slice from an index on, of at most `size` bytes.
pub fn part<'a>(s: &'a [u8], at: usize, size: usize) -> &'a [u8]
    ensures { result.now ≡ take size (drop at s.now) }
{
    let rest = &s[at.min(s.len())..];
    &rest[..size.min(rest.len())]
}
