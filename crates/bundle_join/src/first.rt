// The dossier that stands first in a bundle.
ghost use Rattle.std.specs.Prelude.{◌≡◌, ◌≤◌, ℕ, IfOk, MatchOption};
ghost use Rattle.crew_terms.specs.Legal.{IsLegal};
ghost use Rattle.dossier_terms.specs.Dossier.{Dossier};
ghost use Rattle.dossier_terms.specs.Lines.{text_of};
ghost use Rattle.bundle_join.specs.Firsts.{IsChosen, IsDayOf, IsFirst, IsOpenRoot, IsPlanned};

use crate::day::Day;
use crate::kept::{KeptText, copied};
use branch_tree::{LeafState, Node, Tree};
use bumpalo::Bump;
use cert_write::{Parts, PutFault, write_dossier};
use column_arena::ArenaColumns;
use crew_instance::{Instance, Plan, unassigned};
use kept_prices::{KeptPrices, Prices};
use node_limits::Limits;
use plan_again::repair;
use std::alloc::{AllocError, Global};
use written_laws::{first_trees_are_proved, written_dossiers_are_good};

/// The dossier that stands first: its text, how many tasks its plan leaves unassigned, and its bound.
#[derive(Drop)]
pub(crate) struct First {
    pub(crate) text: Vec<u8>,
    pub(crate) unassigned: u32,
    pub(crate) bound: u32,
}

/// A tree of a root that is open at prices that are all 0.
fn open_root(alloc: Global, instance: &Instance) -> Result<Tree, AllocError>
    ensures { IfOk result (IsOpenRoot instance.now) }
{
    let limits = Limits::root(alloc, instance)?;
    let zero = Prices::zero(alloc, &limits)?;
    let root = Node::Leaf {
        state: LeafState::Open,
        prices: KeptPrices::of(alloc, &limits, &zero)?,
    };
    Ok(Tree::whole(vec![in alloc; root]?))
}

/// The text of a dossier of this plan, with bound 0: its root is open at prices that are all 0.
fn text_of_plan(alloc: Global, instance: &Instance, plan: &Plan) -> Result<Vec<u8>, AllocError>
    requires { IsLegal instance.now plan.now }
    ensures { IfOk result (λ text. (d : Dossier) × IsPlanned instance.now plan.now d × (text.items ≡ text_of d)) }
{
    first_trees_are_proved();
    written_dossiers_are_good();
    // What always holds of the instance is known from here on.
    let _ = instance.teams();
    let arena = Bump::new(alloc);
    let columns = ArenaColumns::new(alloc, &arena);
    let tree = open_root(alloc, instance)?;
    let parts = Parts {
        instance,
        nodes: 0,
        kept: 0,
        columns: &columns,
        plan,
        bound: 0,
        tree: &tree,
        causes: &[],
    };
    let mut kept = KeptText::new(alloc);
    match write_dossier(alloc, &mut kept, &parts) {
        Ok(()) => Ok(kept.into_bytes()),
        Err(PutFault::WriteFault | PutFault::OutOfMemory) => Err(AllocError),
    }
}

/// The day's own dossier.
fn own(alloc: Global, day: &Day<'_>) -> Result<First, AllocError>
    ensures { (d : Dossier) → IsDayOf day.now d → IfOk result (IsFirst d) }
{
    Ok(First {
        text: copied(alloc, day.text)?,
        unassigned: day.unassigned,
        bound: day.bound,
    })
}

/// The dossier that stands first in a bundle whose parts' bounds have this sum: the day's own, or where these jobs make a plan that
/// leaves fewer tasks unassigned, and the sum is no less than the day's own bound, a dossier of that plan. Jobs that clash are left
/// out of it, and tasks that can be added are.
pub(crate) fn first_of(
    alloc: Global,
    day: &Day<'_>,
    jobs: &Plan,
    sum: u64,
) -> Result<First, AllocError>
    ensures { (d : Dossier) → IsDayOf day.now d → IfOk result (λ first. (e : Dossier) × IsFirst e first × IsChosen d sum e) }
{
    if sum < day.bound as u64 {
        return own(alloc, day);
    }
    let plan = repair(alloc, day.instance, jobs)?;
    let left = unassigned(&plan);
    if left >= day.unassigned {
        return own(alloc, day);
    }
    Ok(First {
        text: text_of_plan(alloc, day.instance, &plan)?,
        unassigned: left,
        bound: 0,
    })
}
