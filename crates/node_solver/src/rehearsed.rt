// The script of a search, rehearsed from its root.
ghost use Rattle.std.specs.Prelude.{IfSome};
ghost use Rattle.potentials.specs.Prices.{ArePricesOf};
ghost use Rattle.search_terms.specs.Choice.{IsValidChoice};

use crate::seeds::Known;
use column_arena::Columns;
use crew_instance::Plan;
use crew_terms::Choice;
use node_limits::Limits;
use std::alloc::{AllocError, Global};
use tree_rehearsal::{Effort, Script, rehearse};

/// A script of the tree from the root on, whose best prices these are, that proves the `now` tasks that the best plan leaves
/// unassigned; None where the effort has no programs, or does not suffice for it. AllocError where there is no memory.
pub(crate) fn rehearsed<C: Columns>(
    alloc: Global,
    limits: &Limits<'_>,
    columns: &C,
    plan: &Plan,
    known: &Known,
    now: u32,
    effort: Effort,
) -> Result<Option<Script>, AllocError>
    requires { ArePricesOf limits.now.limits known.now.prices }
{
    if effort.programs == 0 {
        return Ok(None);
    }
    let Known { prices, proved } = known;
    let found = rehearse(alloc, limits, columns, plan, prices, *proved, now, effort)?;
    let Some(script) = found.script else {
        return Ok(None);
    };
    if script.goal() < now {
        return Ok(None);
    }
    Ok(Some(script))
}

/// The script's choice at the root, where there is one, or else that which is wanted.
pub(crate) fn first_choice(
    limits: &Limits<'_>,
    script: &Option<Script>,
    wanted: Option<Choice>,
) -> Option<Choice>
    requires { IfSome wanted (IsValidChoice limits.now.limits) }
    ensures { IfSome result (IsValidChoice limits.now.limits) }
{
    let Some(script) = script else {
        return wanted;
    };
    match script.choice_at(limits, &[]) {
        Some(choice) => Some(choice),
        None => wanted,
    }
}
