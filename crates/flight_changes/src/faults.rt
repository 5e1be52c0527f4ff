// Why a change is refused.
use crew_terms::Name;
use std::alloc::{AllocError, AllocFailed};
use thiserror::Error;

/// Why a desk refuses a change, or gives no instance.
#[derive(Clone, Copy, Debug, PartialEq, Eq, Error)]
pub enum ChangeFault {
    /// Memory ran out.
    #[error("out of memory")]
    OutOfMemory,
    /// No task has the name.
    #[error("no such task")]
    NoTask,
    /// No team has the name.
    #[error("no such team")]
    NoTeam,
    /// No place has the name.
    #[error("no such place")]
    NoPlace,
    /// One of the kind has the name.
    #[error("a name that is taken")]
    SameName,
    /// As many of the kind as a day may have are there: 200 places, 64 teams, 400 tasks.
    #[error("too many")]
    TooMany,
    /// The window ends before it begins, or is wider than 720 minutes.
    #[error("a window that breaks a limit")]
    BadWindow,
    /// The shift does not end after it begins.
    #[error("a shift that breaks a limit")]
    BadShift,
    /// The number of teams is not 1 to 8.
    #[error("a number of teams that breaks a limit")]
    BadTeams,
    /// No travel time from the one place to the other was given, and no default stands.
    #[error("no travel time between two places")]
    MissingTravel { from: Name, to: Name },
    /// The job of this task is frozen, and couldn't be done any more.
    #[error("work that has begun")]
    FrozenWork { task: Name },
}

impl From<AllocError> for ChangeFault {
    ghost use Rattle.std.specs.Prelude.{◌≡◌};
    ghost use Rattle.flight_changes.specs.declared.faults.ChangeFault.TheVariants.{OutOfMemory};

    ghost from_gives = { λ _ e. e ≡ OutOfMemory };

    fn from(_: AllocError) -> Self {
        ChangeFault::OutOfMemory
    }
}

impl<T: Drop> From<AllocFailed<T>> for ChangeFault {
    ghost use Rattle.std.specs.Prelude.{◌≡◌};
    ghost use Rattle.flight_changes.specs.declared.faults.ChangeFault.TheVariants.{OutOfMemory};

    ghost from_gives = { λ _ e. e ≡ OutOfMemory };

    fn from(_: AllocFailed<T>) -> Self {
        ChangeFault::OutOfMemory
    }
}
