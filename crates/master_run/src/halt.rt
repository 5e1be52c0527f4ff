// Why the run of a master goes no further.
use crew_num::Overflow;
use std::alloc::{AllocError, AllocFailed};
use thiserror::Error;

/// Why a run goes no further.
#[derive(Clone, Copy, Debug, PartialEq, Eq, Error)]
pub enum Halt {
    /// Memory ran out.
    #[error("out of memory")]
    OutOfMemory,
    /// An operation that the rows call for leaves the range of numbers.
    #[error("an operation of the master leaves the range")]
    Overflow(Overflow),
    /// As many pivots were made as may be.
    #[error("no pivots are left")]
    Spent,
}

impl From<AllocError> for Halt {
    ghost use Rattle.std.specs.Prelude.{◌≡◌};
    ghost use Rattle.master_run.specs.declared.halt.Halt.TheVariants.{OutOfMemory};

    ghost from_gives = { λ _ e. e ≡ OutOfMemory };

    fn from(_: AllocError) -> Self {
        Halt::OutOfMemory
    }
}

impl<T: Drop> From<AllocFailed<T>> for Halt {
    ghost use Rattle.std.specs.Prelude.{◌≡◌};
    ghost use Rattle.master_run.specs.declared.halt.Halt.TheVariants.{OutOfMemory};

    ghost from_gives = { λ _ e. e ≡ OutOfMemory };

    fn from(_: AllocFailed<T>) -> Self {
        Halt::OutOfMemory
    }
}

impl From<Overflow> for Halt {
    ghost use Rattle.std.specs.Prelude.{◌≡◌};
    ghost use Rattle.master_run.specs.declared.halt.Halt.TheVariants as halts;

    ghost from_gives = { λ fault e. e ≡ halts.Overflow fault };

    fn from(fault: Overflow) -> Self {
        Halt::Overflow(fault)
    }
}
