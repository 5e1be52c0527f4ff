// Why a session takes no entry.
use cert_write::PutFault;
use flight_changes::ChangeFault;
use std::alloc::AllocError;
use thiserror::Error;

/// Why an entry is not taken.
#[derive(Clone, Copy, Debug, PartialEq, Eq, Error)]
pub enum SessionFault {
    /// The day's state refuses it, for another cause than want of memory.
    #[error("a change that is refused")]
    Change(ChangeFault),
    /// A write failed, now or at an earlier entry.
    #[error("a write failed")]
    WriteFault,
    /// Memory ran out, now or at an earlier entry.
    #[error("out of memory")]
    OutOfMemory,
}

impl From<AllocError> for SessionFault {
    ghost use Rattle.std.specs.Prelude.{◌≡◌};
    ghost use Rattle.replan.specs.declared.faults.SessionFault.TheVariants.{OutOfMemory};

    ghost from_gives = { λ _ e. e ≡ OutOfMemory };

    fn from(_: AllocError) -> Self {
        SessionFault::OutOfMemory
    }
}

impl From<PutFault> for SessionFault {
    ghost use Rattle.std.specs.Prelude.{◌≡◌};
    ghost use Rattle.replan.specs.Planning.{fault_of_put};

    ghost from_gives = { λ fault e. e ≡ fault_of_put fault };

    fn from(fault: PutFault) -> Self {
        match fault {
            PutFault::WriteFault => SessionFault::WriteFault,
            PutFault::OutOfMemory => SessionFault::OutOfMemory,
        }
    }
}

/// Why a session goes no further.
#[derive(Clone, Copy, Debug, PartialEq, Eq)]
pub enum Failure {
    /// A write failed.
    WriteFault,
    /// Memory ran out.
    OutOfMemory,
}
