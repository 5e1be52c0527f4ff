// A sink that keeps a text.
ghost use Rattle.std.specs.Prelude.{◌≡◌, ◌≤◌, ◌++◌, [], length, Some, IfOk, OnOk, OnErr, IsErr};
ghost use Rattle.crew_io.specs.Io.{Rose, Took, one_more};

use crew_io::sink::Sink;
use crew_io::source::Failed;
use std::alloc::{AllocError, Global};

/// The same bytes in memory of their own.
pub(crate) fn copied(alloc: Global, bytes: &[u8]) -> Result<Vec<u8>, AllocError>
    ensures { IfOk result (λ copy. copy.items ≡ bytes.now) }
{
    let mut copy = Vec::with_capacity(alloc, bytes.len())?;
    copy.extend_from_slice(bytes)?;
    Ok(copy)
}

/// A sink that keeps all that is written to it. A write fails where there is no memory, and that is counted.
#[derive(Drop)]
pub struct KeptText {
    bytes: Vec<u8>,
    failed: u64,
}

impl KeptText {
    /// A sink to which nothing was written.
    pub fn new(alloc: Global) -> KeptText
        ensures { ⟦<KeptText as Sink>⟧.got result ≡ Some [] }
    {
        KeptText {
            bytes: Vec::new(alloc),
            failed: 0,
        }
    }

    /// The bytes that were written.
    pub fn into_bytes(self) -> Vec<u8>
        ensures { ⟦<KeptText as Sink>⟧.got self ≡ Some result.items }
    {
        self.bytes
    }
}

impl Sink for KeptText {
    ghost use Rattle.bundle_join.specs.Texts.{kept_bytes, kept_faults};

    ghost got = { λ s. Some (kept_bytes s) };

    ghost faults = { λ s. kept_faults s };

    ghost held = { λ _. [] };

    ghost steady = { λ _. ⊥ };

    ghost full = { λ _. ⊥ };

    fn write(&mut self, piece: &[u8]) -> Result<usize, Failed> {
        match self.bytes.extend_from_slice(piece) {
            Ok(()) => Ok(piece.len()),
            Err(AllocError) => {
                self.failed = self.failed.saturating_add(1);
                Err(Failed)
            }
        }
    }

    fn flush(&mut self) -> Result<(), Failed> {
        Ok(())
    }
}
