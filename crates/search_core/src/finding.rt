// What a step finds in a node.
ghost use Rattle.std.specs.Prelude.{◌≡◌, ◌≤◌, ℕ, List, IfOk, IfSome};
ghost use Rattle.crew_terms.specs.Leaf.{IsOnRequired, Prices as LeafPrices};
ghost use Rattle.crew_terms.specs.Limits.{Limits as NodeLimits, Route as TeamRoute, tasks_in};
ghost use Rattle.crew_terms.specs.Plan.{unassigned_count};
ghost use Rattle.search_tree.specs.States.{DecidesProved};
ghost use Rattle.label_pricing.specs.Pricing.{HasRoom};
ghost use Rattle.node_limits.specs.Walks.{IsBack, CanBranch, limits_after};
ghost use Rattle.potentials.specs.Prices.{ArePricesOf};
ghost use Rattle.search_core.specs.Findings.{IsFinding};
ghost use Rattle.search_terms.specs.Inside.{IsNode};
ghost use Rattle.search_terms.specs.Search.{Extends, IsKeepable};

use crate::begun::Begun;
use crate::handing::{Handed, hand_on};
use crate::scripted::{Place, Scripted};
use crate::starts::start_of;
use column_arena::Columns;
use crew_instance::{Instance, Plan};
use crew_terms::Choice;
use kept_prices::KeptPrices;
use label_pricing::{Pricer, worths_decide};
use node_limits::{Branch, Limits, ascend, descend};
use node_solver::{Effort as NodeEffort, NodeEnd, Script, Step, Why, process};
use std::alloc::{AllocError, Global};

/// How a node ends: closed by prices, or split by a choice for a cause, with what is handed on to its children.
#[derive(Drop)]
pub(crate) enum Ending {
    Closed(KeptPrices),
    Split {
        choice: Choice,
        why: Why,
        handed: Handed,
    },
}

/// A better plan, if the step found one, how the node ends, and a script of the tree, if the step made one.
#[derive(Drop)]
pub(crate) struct Finding {
    pub(crate) plan: Option<Plan>,
    pub(crate) ending: Ending,
    pub(crate) script: Option<Script>,
}

/// Takes the step at a node with these limits, whose own prices give this bound. The limits stay as they were. AllocError where
/// there is no memory: then only the columns may have grown.
fn examine<C: Columns>(
    alloc: Global,
    limits: &mut Limits<'_>,
    pricer: &mut Pricer,
    own: &KeptPrices,
    bound: i128,
    best: &Plan,
    columns: &mut C,
    effort: &NodeEffort,
    place: Place<'_>,
) -> Result<Finding, AllocError>
    requires node { IsNode limits.old.limits }
    requires spare { 1 ≤ limits.old.spare }
    requires own { ArePricesOf limits.old.limits own.now }
    requires required { IsOnRequired limits.old.limits own.now }
    requires bound { DecidesProved limits.old.limits own.now bound }
    requires best { unassigned_count best.now ≤ tasks_in limits.old.limits }
    requires room { HasRoom limits.old.limits.instance pricer.old }
    ensures found { IfOk result (IsFinding limits.old.limits
        (unassigned_count best.now) effort.now.pivots
        (C.columns columns.old) (C.columns columns.new) own.now) }
    ensures extends { Extends limits.old.limits (C.columns columns.old) (C.columns columns.new) }
    ensures limits { limits.new ≡ limits.old }
    ensures room { pricer.new.places ≡ pricer.old.places }
{
    let start = start_of(alloc, limits, pricer, own, bound, place)?;
    let wanted = place.choice(limits);
    let Step { plan, end, script } = process(alloc, limits, start, best, columns, effort, wanted)?;
    match end {
        NodeEnd::Closed(prices) => {
            let kept = KeptPrices::of(alloc, limits, &prices)?;
            let ending = Ending::Closed(kept);
            Ok(Finding {
                plan,
                ending,
                script,
            })
        }
        NodeEnd::Split {
            choice,
            why,
            prices,
        } => {
            worths_decide();
            // It is known from here on that the limits are of an instance, and the prices in their range.
            let _ = limits.instance();
            let _ = prices.tasks();
            let handed = hand_on(alloc, limits, pricer, choice, own, bound, &prices)?;
            let ending = Ending::Split {
                choice,
                why,
                handed,
            };
            Ok(Finding {
                plan,
                ending,
                script,
            })
        }
    }
}

/// Takes the step at the node to which the turns lead from these limits, and comes back.
fn visit<C: Columns>(
    alloc: Global,
    limits: &mut Limits<'_>,
    pricer: &mut Pricer,
    turns: &[Branch],
    own: &KeptPrices,
    bound: i128,
    best: &Plan,
    columns: &mut C,
    effort: &NodeEffort,
    scripted: &Scripted,
) -> Result<Finding, AllocError>
    requires can { CanBranch limits.old.limits turns.now }
    requires node { IsNode (limits_after limits.old.limits turns.now) }
    requires own { ArePricesOf (limits_after limits.old.limits turns.now) own.now }
    requires required { IsOnRequired (limits_after limits.old.limits turns.now) own.now }
    requires bound { DecidesProved (limits_after limits.old.limits turns.now) own.now bound }
    requires best { unassigned_count best.now ≤ tasks_in
        (limits_after limits.old.limits turns.now) }
    requires room { HasRoom limits.old.limits.instance pricer.old }
    ensures found { IfOk result (IsFinding (limits_after limits.old.limits turns.now)
        (unassigned_count best.now) effort.now.pivots
        (C.columns columns.old) (C.columns columns.new) own.now) }
    ensures extends { Extends (limits_after limits.old.limits turns.now) (C.columns columns.old)
        (C.columns columns.new) }
    ensures back { IsBack limits.new limits.old }
    ensures room { pricer.new.places ≡ pricer.old.places }
{
    limits.reserve(turns.len() + 1)?;
    descend(limits, turns);
    let place = scripted.place(turns);
    let found = examine(
        alloc, limits, pricer, own, bound, best, columns, effort, place,
    );
    ascend(limits, turns.len());
    found
}

/// What was found, its plan brought near to the one with which the search began.
fn brought_near(
    alloc: Global,
    instance: &Instance,
    begun: &Begun,
    found: Finding,
) -> Result<Finding, AllocError>
    requires { IfSome found.plan (IsKeepable instance.now) }
    ensures { (n : NodeLimits) (best pivots : ℕ) (columns more : List TeamRoute) (own : LeafPrices)
        → n.instance ≡ instance.now → IsFinding n best pivots columns more own found
        → IfOk result (IsFinding n best pivots columns more own) }
{
    let Finding {
        plan,
        ending,
        script,
    } = found;
    let Some(plan) = plan else {
        return Ok(Finding {
            plan: None,
            ending,
            script,
        });
    };
    let near = begun.nearer_plan(alloc, instance, plan)?;
    Ok(Finding {
        plan: Some(near),
        ending,
        script,
    })
}

/// Takes the step at the node to which the turns lead from these limits, comes back, and brings the plan that was found near to
/// the one with which the search began.
pub(crate) fn explore<C: Columns>(
    alloc: Global,
    limits: &mut Limits<'_>,
    pricer: &mut Pricer,
    turns: &[Branch],
    own: &KeptPrices,
    bound: i128,
    best: &Plan,
    columns: &mut C,
    effort: &NodeEffort,
    scripted: &Scripted,
    begun: &Begun,
) -> Result<Finding, AllocError>
    requires can { CanBranch limits.old.limits turns.now }
    requires node { IsNode (limits_after limits.old.limits turns.now) }
    requires own { ArePricesOf (limits_after limits.old.limits turns.now) own.now }
    requires required { IsOnRequired (limits_after limits.old.limits turns.now) own.now }
    requires bound { DecidesProved (limits_after limits.old.limits turns.now) own.now bound }
    requires best { unassigned_count best.now ≤ tasks_in
        (limits_after limits.old.limits turns.now) }
    requires room { HasRoom limits.old.limits.instance pricer.old }
    ensures found { IfOk result (IsFinding (limits_after limits.old.limits turns.now)
        (unassigned_count best.now) effort.now.pivots
        (C.columns columns.old) (C.columns columns.new) own.now) }
    ensures extends { Extends (limits_after limits.old.limits turns.now) (C.columns columns.old)
        (C.columns columns.new) }
    ensures back { IsBack limits.new limits.old }
    ensures room { pricer.new.places ≡ pricer.old.places }
{
    let found = visit(
        alloc, limits, pricer, turns, own, bound, best, columns, effort, scripted,
    )?;
    brought_near(alloc, limits.instance(), begun, found)
}
