// How much the routes of the last rounds use each team at each task and minute.
ghost use Rattle.std.specs.Prelude.{◌≡◌, ◌<◌, ◌≤◌, All, IfOk, OnOk};
ghost use Rattle.branch_choice.specs.Uses.{IsPermittedUse};
ghost use Rattle.crew_terms.specs.Limits.{Limits as NodeLimits};
ghost use Rattle.price_ascent.specs.Found.{IsFound};

use crate::trail::{FoundRoute, ROUNDS_KEPT};
use branch_choice::Use;
use std::alloc::{AllocError, Global};
use std::collections::VecDeque;

/// What a visit of the last round counts. A visit in every round counts 32 times as much at most.
pub const LAST_VISIT: i128 = 1 << 15;

// What a visit counts after so many more rounds: each takes a 32nd of it.
fn weight(age: u32) -> i128 {
    let mut weight = LAST_VISIT;
    for _ in 0..age.min(ROUNDS_KEPT) {
        weight -= weight / 32;
    }
    weight
}

// Adds a use for each visit of the route.
fn add_visits(uses: &mut Vec<Use>, route: &FoundRoute, num: i128) -> Result<(), AllocError>
    ensures { (n : NodeLimits) → IsFound n route.now → All (IsPermittedUse n) uses.old.items
        → OnOk result (All (IsPermittedUse n) uses.new.items) }
{
    for visit in &route.visits {
        uses.push(Use {
            team: route.team,
            task: visit.task,
            start: visit.start,
            num,
        })?;
    }
    Ok(())
}

// Adds the use with this number, if it ends a run of uses of one team at one task and minute.
fn add_at_end(merged: &mut Vec<Use>, one: &Use, num: i128, ends: bool) -> Result<(), AllocError>
    ensures { (n : NodeLimits) → IsPermittedUse n one.now → All (IsPermittedUse n) merged.old.items
        → OnOk result (All (IsPermittedUse n) merged.new.items) }
{
    if !ends {
        return Ok(());
    }
    merged.push(Use { num, ..*one })?;
    Ok(())
}

// Puts uses of one team at one task and minute, which stand together, into one.
fn merged(alloc: Global, uses: &[Use]) -> Result<Vec<Use>, AllocError>
    ensures { (n : NodeLimits) → All (IsPermittedUse n) uses.now
        → IfOk result (λ merged. All (IsPermittedUse n) merged.items) }
{
    let mut merged: Vec<Use> = Vec::new(alloc);
    let mut sum = 0i128;
    for n in 0..uses.len() {
        let one = &uses[n];
        sum = sum.saturating_add(one.num);
        let ends = n + 1 >= uses.len() || !is_same_visit(&uses[n + 1], one);
        add_at_end(&mut merged, one, sum, ends)?;
        sum = if ends { 0 } else { sum };
    }
    Ok(merged)
}

fn is_same_visit(a: &Use, b: &Use) -> bool {
    a.team == b.team && a.task == b.task && a.start == b.start
}

/// How much the routes use each team at each task and minute, by task, then team, then minute: a visit of the round
/// `last` counts `LAST_VISIT`, one of an earlier round less. AllocError where there is no memory.
pub fn average_uses(
    alloc: Global,
    routes: &VecDeque<FoundRoute>,
    last: u32,
) -> Result<Vec<Use>, AllocError>
    ensures { (n : NodeLimits) → All (IsFound n) routes.now.items
        → IfOk result (λ uses. All (IsPermittedUse n) uses.items) }
{
    let mut uses = Vec::new(alloc);
    for n in 0..routes.len() {
        let route = &routes[n];
        add_visits(&mut uses, route, weight(last.saturating_sub(route.round)))?;
    }
    uses.sort_by_key(|one| (one.task, one.team, one.start))?;
    merged(alloc, &uses)
}
