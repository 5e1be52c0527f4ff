// Why the reading of a bundle goes no further.
use crate::reason::BundleReason;
use std::alloc::AllocError;

/// Why the reading of a bundle goes no further.
#[derive(Clone, Copy, Debug, PartialEq, Eq)]
pub(crate) enum Halt {
    /// The first line that is refused, from 1, and why.
    No { line: u64, reason: BundleReason },
    /// A read failed.
    ReadFault,
    /// Memory is wanting.
    OutOfMemory,
}

impl From<AllocError> for Halt {
    ghost use Rattle.std.specs.Prelude.{◌≡◌};
    ghost use Rattle.parts_reader.specs.declared.halt.Halt.TheVariants.{OutOfMemory};

    ghost from_gives = { λ _ halt. halt ≡ OutOfMemory };

    fn from(_: AllocError) -> Self {
        Halt::OutOfMemory
    }
}
