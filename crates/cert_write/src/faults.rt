// Why a dossier was not written.
use std::alloc::AllocError;

/// Why a dossier was not written whole.
#[derive(Clone, Copy, Debug, PartialEq, Eq)]
pub enum PutFault {
    /// A write has failed.
    WriteFault,
    /// There was no memory, and nothing was written.
    OutOfMemory,
}

impl From<AllocError> for PutFault {
    ghost use Rattle.std.specs.Prelude.{◌≡◌};
    ghost use Rattle.cert_write.specs.declared.faults.PutFault.TheVariants.{OutOfMemory};

    ghost from_gives = { λ _ e. e ≡ OutOfMemory };

    fn from(_: AllocError) -> Self {
        PutFault::OutOfMemory
    }
}
