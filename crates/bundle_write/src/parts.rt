// The dossiers of a day's parts.
ghost use Rattle.std.specs.Prelude.{◌≡◌, ◌≤◌, ◌<◌, ◌*◌, ◌↔◌, All, IfOk, IsTrue, List, length, map};
ghost use Rattle.std.specs.List.Sorted.{IsStrictlyIncreasing};
ghost use Rattle.crew_instance.specs.Draft.{rows_of};
ghost use Rattle.crew_terms.specs.declared.TheConstants.{MOST_NODES};
ghost use Rattle.dossier_terms.specs.Dossier.{Dossier};
ghost use Rattle.dossier_terms.specs.Lines.{text_of};
ghost use Rattle.bundle_write.specs.Parts.{ArePartDossiers, AreTaskLists, IsPartPlanned, IsPlannedAlone};

use bundle_join::KeptText;
use crew_instance::Instance;
use crew_terms::MOST_NODES;
use part_make::part_of;
use replan::plan_alone;
use std::alloc::{AllocError, Global};

/// A part that is planned: the text of its dossier, and whether that proves that no plan of the part does more tasks.
#[derive(Drop)]
pub(crate) struct PlannedPart {
    pub(crate) text: Vec<u8>,
    pub(crate) proved: bool,
}

/// The part, planned by a search with so many steps.
fn planned_alone(alloc: Global, part: &Instance, nodes: u32) -> Result<PlannedPart, AllocError>
    requires { nodes ≤ MOST_NODES }
    ensures { IfOk result (IsPlannedAlone part.now nodes) }
{
    let mut kept = KeptText::new(alloc);
    match plan_alone(alloc, part, nodes, &mut kept) {
        Ok(counts) => Ok(PlannedPart {
            text: kept.into_bytes(),
            proved: counts.bound == counts.unassigned,
        }),
        Err(_) => Err(AllocError),
    }
}

/// Whether a part that was planned with so many steps is planned once more, with twice as many.
fn is_tried_again(planned: &PlannedPart, nodes: u32) -> bool
    ensures { IsTrue result → 2 * nodes ≤ MOST_NODES }
{
    !planned.proved && 0 < nodes && nodes <= MOST_NODES / 2
}

/// The part with these tasks, planned on its own by a search with so many steps; where these do not suffice, once more with twice as
/// many.
pub(crate) fn planned_part(
    alloc: Global,
    instance: &Instance,
    tasks: &[u32],
    nodes: u32,
) -> Result<PlannedPart, AllocError>
    requires nodes { nodes ≤ MOST_NODES }
    requires known { All (λ t. t < length instance.now.tasks) tasks.now }
    requires rising { IsStrictlyIncreasing tasks.now }
    ensures { IfOk result (IsPartPlanned instance.now nodes tasks.now) }
{
    let part = part_of(alloc, instance, tasks)?;
    let planned = planned_alone(alloc, &part, nodes)?;
    if is_tried_again(&planned, nodes) {
        return planned_alone(alloc, &part, 2 * nodes);
    }
    Ok(planned)
}

/// The texts of the dossiers of the parts with the tasks of each list, in order.
pub(crate) fn part_texts(
    alloc: Global,
    instance: &Instance,
    lists: &[Vec<u32>],
    nodes: u32,
) -> Result<Vec<Vec<u8>>, AllocError>
    requires nodes { nodes ≤ MOST_NODES }
    requires lists { AreTaskLists instance.now (rows_of lists.now) }
    ensures { IfOk result (λ texts. (ds : List Dossier)
        × ArePartDossiers instance.now nodes (rows_of lists.now) ds
        × (rows_of texts.items ≡ map text_of ds)) }
{
    let mut texts = Vec::with_capacity(alloc, lists.len())?;
    for tasks in lists {
        let planned = planned_part(alloc, instance, tasks, nodes)?;
        texts.push(planned.text)?;
    }
    Ok(texts)
}
