// Why a reader of lines goes no further.

use crate::faults::LineFault;
use dossier_terms::Reason;
use std::alloc::{AllocError, AllocFailed};

/// Why a reader of lines goes no further.
#[derive(Clone, Copy, Debug, PartialEq, Eq)]
pub enum Refusal {
    /// The line breaks a rule.
    No(Reason),
    /// Memory is wanting.
    OutOfMemory,
}

impl From<LineFault> for Reason {
    ghost use Rattle.std.specs.Prelude.{◌≡◌};
    ghost use Rattle.line_in.specs.Faults.{reason_for};

    ghost from_gives = { λ fault reason. reason ≡ reason_for fault };

    fn from(fault: LineFault) -> Self {
        fault.reason()
    }
}

impl From<LineFault> for Refusal {
    ghost use Rattle.std.specs.Prelude.{◌≡◌};
    ghost use Rattle.line_in.specs.Faults.{reason_for};
    ghost use Rattle.line_in.specs.declared.refusals.Refusal.TheVariants.{No};

    ghost from_gives = { λ fault refusal. refusal ≡ No (reason_for fault) };

    fn from(fault: LineFault) -> Self {
        Refusal::No(fault.reason())
    }
}

impl From<Reason> for Refusal {
    ghost use Rattle.std.specs.Prelude.{◌≡◌};
    ghost use Rattle.line_in.specs.declared.refusals.Refusal.TheVariants.{No};

    ghost from_gives = { λ reason refusal. refusal ≡ No reason };

    fn from(reason: Reason) -> Self {
        Refusal::No(reason)
    }
}

impl From<AllocError> for Refusal {
    ghost use Rattle.std.specs.Prelude.{◌≡◌};
    ghost use Rattle.line_in.specs.declared.refusals.Refusal.TheVariants.{OutOfMemory};

    ghost from_gives = { λ _ refusal. refusal ≡ OutOfMemory };

    fn from(_: AllocError) -> Self {
        Refusal::OutOfMemory
    }
}

impl<T: Drop> From<AllocFailed<T>> for Refusal {
    ghost use Rattle.std.specs.Prelude.{◌≡◌};
    ghost use Rattle.line_in.specs.declared.refusals.Refusal.TheVariants.{OutOfMemory};

    ghost from_gives = { λ _ refusal. refusal ≡ OutOfMemory };

    fn from(_: AllocFailed<T>) -> Self {
        Refusal::OutOfMemory
    }
}
