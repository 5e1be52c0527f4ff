// The bundle of a dossier: the dossier itself, and behind it those of the day's parts.
ghost use Rattle.std.specs.Prelude.{◌≡◌, ◌≤◌, Err, IfOk, length};
ghost use Rattle.crew_instance.specs.Draft.{rows_of};
ghost use Rattle.crew_io.specs.Puts.{TellsWrites};
ghost use Rattle.crew_terms.specs.declared.TheConstants.{MOST_NODES};
ghost use Rattle.dossier_terms.specs.Dossier.{Dossier};
ghost use Rattle.part_cuts.specs.Divided.{IsDivision};
ghost use Rattle.bundle_join.specs.Firsts.{IsDayOf};
ghost use Rattle.bundle_write.specs.Bundles.{AreApart, IsBundlePut};

use crate::parts::part_texts;
use bundle_join::{Day, JoinFault, Proves, put_joined};
use cert_write::PutFault;
use crew_instance::Instance;
use crew_io::sink::Sink;
use crew_terms::MOST_TASKS;
use part_cuts::divided;
use std::alloc::{AllocError, Global};

/// A part with more tasks than this is large.
const LARGE: usize = 75;

/// The day is cut at most at minutes at which fewer tasks of several teams than this can be at work.
const MOST_FEW: u32 = 4;

/// Whether some part is large.
fn has_large(lists: &[Vec<u32>]) -> bool {
    for tasks in lists {
        if tasks.len() > LARGE {
            return true;
        }
    }
    false
}

/// The tasks of each part of the day. It is cut only at minutes at which no task of several teams can be at work; where some part
/// is large by that, also at minutes at which one such task can be, and so on.
fn division(alloc: Global, instance: &Instance) -> Result<Vec<Vec<u32>>, AllocError>
    ensures { IfOk result (λ lists.
        IsDivision (length instance.now.tasks) (rows_of lists.items)) }
{
    for few in 1..MOST_FEW {
        let lists = divided(alloc, instance, few)?;
        if !has_large(&lists) {
            return Ok(lists);
        }
    }
    divided(alloc, instance, MOST_FEW)
}

/// The tasks of each part of the day; no part where there were more of them than an instance may have tasks.
pub(crate) fn parts_of(alloc: Global, instance: &Instance) -> Result<Vec<Vec<u32>>, AllocError>
    ensures { IfOk result (λ lists. AreApart instance.now (rows_of lists.items)) }
{
    let lists = division(alloc, instance)?;
    if lists.len() > MOST_TASKS {
        return Ok(Vec::new(alloc));
    }
    Ok(lists)
}

/// Writes the bundle of a good dossier: divides the day into parts, plans each on its own by a search with so many steps, and puts
/// their dossiers together with the day's. All memory is taken before a byte is written; after a write fault a front of the bundle
/// was written.
pub(crate) fn put_bundle<K: Sink>(
    alloc: Global,
    day: &Day<'_>,
    nodes: u32,
    sink: &mut K,
) -> Result<Proves, PutFault>
    requires nodes { nodes ≤ MOST_NODES }
    ensures put { (d : Dossier) → IsDayOf day.now d →
        IsBundlePut d nodes result (K.got sink.old) (K.got sink.new) }
    ensures tells { TellsWrites K.Sink sink.old sink.new (result ≡ Err PutFault.WriteFault) }
{
    let lists = parts_of(alloc, day.instance)?;
    let texts = part_texts(alloc, day.instance, &lists, nodes)?;
    match put_joined(alloc, day, &texts, sink) {
        Ok(proves) => Ok(proves),
        Err(JoinFault::WriteFault) => Err(PutFault::WriteFault),
        Err(JoinFault::OutOfMemory) => Err(PutFault::OutOfMemory),
        // Not so of the parts of a good dossier; but the source of a text need not tell what it gave.
        Err(JoinFault::NoPart { .. }) => Err(PutFault::OutOfMemory),
    }
}
