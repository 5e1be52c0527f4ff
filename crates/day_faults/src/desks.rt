// A record, handed to the desk.
ghost use Rattle.std.specs.Prelude.{◌≡◌, IfOk, OnOk, option_map};
ghost use Rattle.day_terms.specs.Ranges.{IsInRange};
ghost use Rattle.day_terms.specs.Refusal.{refusal_of};
ghost use Rattle.flight_changes.specs.Faults.{fault_of};
ghost use Rattle.day_faults.specs.Stops.{passed};

use day_terms::Entry;
use flight_changes::{ChangeFault, Desk};
use std::alloc::AllocError;

/// Hands an entry to the desk, which takes it or leaves it out, and tells why it is left out, if it is. AllocError comes where
/// memory is wanting.
pub(crate) fn hand(desk: &mut Desk, entry: &Entry) -> Result<Option<ChangeFault>, AllocError>
    requires { IsInRange entry.now }
    ensures passed { OnOk result (desk.new ≡ passed desk.old entry.now) }
    ensures told { IfOk result (λ told. told ≡ option_map fault_of (refusal_of desk.old entry.now)) }
{
    match desk.apply(entry) {
        Ok(()) => Ok(None),
        Err(ChangeFault::OutOfMemory) => Err(AllocError),
        Err(fault) => Ok(Some(fault)),
    }
}
