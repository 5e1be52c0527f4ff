// Why a reading goes no further.
use dossier_terms::Reason;
use std::alloc::{AllocError, AllocFailed};

/// Why the reading of an input goes no further.
#[derive(Clone, Copy, Debug, PartialEq, Eq)]
pub enum Halt {
    /// The first line that is refused, from 1, and why.
    No { line: u64, reason: Reason },
    /// A read failed.
    ReadFault,
    /// Memory is wanting.
    OutOfMemory,
}

impl From<AllocError> for Halt {
    ghost use Rattle.std.specs.Prelude.{◌≡◌};
    ghost use Rattle.late_lines.specs.declared.halt.Halt.TheVariants.{OutOfMemory};

    ghost from_gives = { λ _ halt. halt ≡ OutOfMemory };

    fn from(_: AllocError) -> Self {
        Halt::OutOfMemory
    }
}

impl<T: Drop> From<AllocFailed<T>> for Halt {
    ghost use Rattle.std.specs.Prelude.{◌≡◌};
    ghost use Rattle.late_lines.specs.declared.halt.Halt.TheVariants.{OutOfMemory};

    ghost from_gives = { λ _ halt. halt ≡ OutOfMemory };

    fn from(_: AllocFailed<T>) -> Self {
        Halt::OutOfMemory
    }
}
