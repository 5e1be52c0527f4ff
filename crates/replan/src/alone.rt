// An instance that is planned on its own.
ghost use Rattle.std.specs.Prelude.{◌≡◌, ◌≤◌, Err};
ghost use Rattle.crew_io.specs.Puts.{TellsWrites};
ghost use Rattle.crew_terms.specs.declared.TheConstants.{MOST_NODES};
ghost use Rattle.replan.specs.Alone.{IsPutAlone};

use crate::counts::Counts;
use crate::faults::SessionFault;
use crate::round::put_round;
use cert_write::PutFault;
use crew_instance::Instance;
use crew_io::sink::Sink;
use std::alloc::Global;

/// Plans the instance by a search with so many steps, which goes out from no columns, and writes a dossier. A write fault leaves
/// a front of it; for want of memory nothing is written.
pub fn plan_alone<K: Sink>(
    alloc: Global,
    instance: &Instance,
    nodes: u32,
    sink: &mut K,
) -> Result<Counts, PutFault>
    requires { nodes ≤ MOST_NODES }
    ensures put { IsPutAlone instance.now nodes result (K.got sink.old) (K.got sink.new) }
    ensures tells { TellsWrites K.Sink sink.old sink.new (result ≡ Err PutFault.WriteFault) }
{
    match put_round(alloc, instance, nodes, &None, None, sink) {
        Ok(planned) => Ok(planned.counts),
        Err(SessionFault::WriteFault) => Err(PutFault::WriteFault),
        Err(SessionFault::OutOfMemory) => Err(PutFault::OutOfMemory),
        Err(SessionFault::Change(_)) => unreachable!(),
    }
}
