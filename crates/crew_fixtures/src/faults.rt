// Why there is no such fixture.
use crew_instance::BuildFault;
use std::alloc::{AllocError, AllocFailed};
use thiserror::Error;

/// Why there is no such fixture.
#[derive(Clone, Copy, Debug, PartialEq, Eq, Error)]
pub enum FixtureFault {
    /// The bytes are no name.
    #[error("no name")]
    NoName,
    /// The number is no task's.
    #[error("no such task")]
    NoTask,
    /// The builder refuses a part, or gives no instance.
    #[error("the builder refuses: {0}")]
    Refused(BuildFault),
}

impl From<BuildFault> for FixtureFault {
    fn from(fault: BuildFault) -> Self {
        FixtureFault::Refused(fault)
    }
}

impl From<AllocError> for FixtureFault {
    fn from(_: AllocError) -> Self {
        FixtureFault::Refused(BuildFault::OutOfMemory)
    }
}

impl<T: Drop> From<AllocFailed<T>> for FixtureFault {
    fn from(_: AllocFailed<T>) -> Self {
        FixtureFault::Refused(BuildFault::OutOfMemory)
    }
}
