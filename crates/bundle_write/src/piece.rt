// What is written of one dossier.
ghost use Rattle.std.specs.Prelude.{◌≡◌, ◌≤◌, ◌↔◌, Err, IsTrue};
ghost use Rattle.crew_io.specs.Puts.{TellsWrites};
ghost use Rattle.crew_terms.specs.declared.TheConstants.{MOST_NODES};
ghost use Rattle.dossier_terms.specs.Dossier.{Dossier};
ghost use Rattle.bundle_join.specs.Firsts.{IsDayOf};
ghost use Rattle.bundle_write.specs.Pieces.{IsPiecePut, IsWithin};

use crate::bundle::{parts_of, put_bundle};
use crate::parts::planned_part;
use bundle_join::{Day, Proves};
use cert_write::PutFault;
use crew_instance::Instance;
use crew_io::put::put_all;
use crew_io::sink::{Sink, WriteFault};
use line_out::{Part, put_line};
use std::alloc::Global;

/// What is to be written of each good dossier.
#[derive(Clone, Copy, Debug, PartialEq, Eq)]
pub enum Job {
    /// Its bundle, whose parts are planned with so many steps each.
    Bundle { nodes: u32 },
    /// The line with the number of parts that its day has.
    Count,
    /// The dossier of the part of its day with this number, from 0, planned with so many steps; nothing where it has fewer parts.
    Part { nodes: u32, number: u32 },
}

/// Whether the bundle proves that no plan leaves fewer tasks than its own.
fn is_proved(proves: Proves) -> bool
    ensures { IsTrue result ↔ (proves.bound ≡ proves.unassigned) }
{
    proves.bound == proves.unassigned as u64
}

/// Writes the line with the number of parts.
fn put_count<K: Sink>(alloc: Global, day: &Day<'_>, sink: &mut K) -> Result<bool, PutFault>
    ensures put { (d : Dossier) → IsDayOf day.now d →
        IsPiecePut Job.Count d result (K.got sink.old) (K.got sink.new) }
    ensures tells { TellsWrites K.Sink sink.old sink.new (result ≡ Err PutFault.WriteFault) }
{
    let count = parts_of(alloc, day.instance)?.len() as u64;
    match put_line(sink, &[Part::Word(b"parts"), Part::Number(count)]) {
        Ok(()) => Ok(true),
        Err(WriteFault) => Err(PutFault::WriteFault),
    }
}

/// Writes the dossier of one part, if there are so many.
fn put_part<K: Sink>(
    alloc: Global,
    day: &Day<'_>,
    nodes: u32,
    number: u32,
    sink: &mut K,
) -> Result<bool, PutFault>
    requires nodes { nodes ≤ MOST_NODES }
    ensures put { (d : Dossier) → IsDayOf day.now d →
        IsPiecePut (Job.Part nodes number) d result (K.got sink.old) (K.got sink.new) }
    ensures tells { TellsWrites K.Sink sink.old sink.new (result ≡ Err PutFault.WriteFault) }
{
    let lists = parts_of(alloc, day.instance)?;
    let number = number as usize;
    if number >= lists.len() {
        return Ok(true);
    }
    let part = planned_part(alloc, day.instance, &lists[number], nodes)?;
    match put_all(sink, &part.text) {
        Ok(()) => Ok(part.proved),
        Err(WriteFault) => Err(PutFault::WriteFault),
    }
}

/// Writes what is to be written of a good dossier; true where no dossier that is planned leaves open whether another plan does more
/// tasks. All memory is taken before a byte is written; after a write fault a front of it was written.
pub fn put_piece<K: Sink>(
    alloc: Global,
    job: Job,
    day: &Day<'_>,
    sink: &mut K,
) -> Result<bool, PutFault>
    requires { IsWithin job }
    ensures put { (d : Dossier) → IsDayOf day.now d →
        IsPiecePut job d result (K.got sink.old) (K.got sink.new) }
    ensures tells { TellsWrites K.Sink sink.old sink.new (result ≡ Err PutFault.WriteFault) }
{
    match job {
        Job::Bundle { nodes } => Ok(is_proved(put_bundle(alloc, day, nodes, sink)?)),
        Job::Count => put_count(alloc, day, sink),
        Job::Part { nodes, number } => put_part(alloc, day, nodes, number, sink),
    }
}
