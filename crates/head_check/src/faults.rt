// What a builder's fault says of a line.
ghost use Rattle.std.specs.Prelude.{◌≡◌};
ghost use Rattle.head_check.specs.Head.{refusal_for};

use crew_instance::BuildFault;
use dossier_terms::Reason;
use line_in::Refusal;

/// Why a line is refused whose builder has this fault: a name stands twice, memory is wanting, or the instance breaks a
/// rule of instances.
pub fn refusal_of(fault: BuildFault) -> Refusal
    ensures { result ≡ refusal_for fault }
{
    match fault {
        BuildFault::SameName => Refusal::No(Reason::Name),
        BuildFault::OutOfMemory => Refusal::OutOfMemory,
        _ => Refusal::No(Reason::Instance),
    }
}
