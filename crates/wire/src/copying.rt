// The copy of bytes into a lent slice.
ghost use Rattle.std.specs.Prelude.{◌≡◌};
ghost use Rattle.wire.specs.Bytes.{copied};

// Copies a source into the target from an index on. Where it does not fit nothing is copied.
#[tactic(auto, using(crate::proofs::Overlays::copying))]
pub fn copy_at(target: &mut [u8], at: usize, source: &[u8])
    ensures { target.new ≡ copied target.old at source.now }
{
    if at <= target.len() && source.len() <= target.len() - at {
        target[at..at + source.len()].copy_from_slice(source);
    }
}
