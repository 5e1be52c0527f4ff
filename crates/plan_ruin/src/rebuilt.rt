// Plans that leave fewer tasks unassigned, or stay nearer to an old one.
ghost use Rattle.std.specs.Prelude.{◌≡◌, ◌≤◌, IfOk};
ghost use Rattle.crew_terms.specs.Legal.{IsLegal, IsPacked};
ghost use Rattle.crew_terms.specs.Plan.{unassigned_count};
ghost use Rattle.team_days.specs.Adding.{Keeps};

use crate::effort::Effort;
use crate::kept::Old;
use crate::search::Search;
use crew_instance::{Instance, Plan, unassigned};
use plan_builder::pack;
use plan_check::is_as_good;
use std::alloc::{AllocError, Global};

/// The plan that is found, packed, if it is legal and leaves no more tasks unassigned than the one that is given; else that one.
fn packed_best(
    alloc: Global,
    instance: &Instance,
    found: &Plan,
    plan: &Plan,
) -> Result<Plan, AllocError>
    requires { IsLegal instance.now plan.now }
    ensures legal { IfOk result (λ p. IsLegal instance.now p) }
    ensures packed { IfOk result (λ p. IsPacked instance.now p) }
    ensures fewer { IfOk result (λ p. unassigned_count p ≤ unassigned_count plan.now) }
{
    if is_as_good(instance, found, plan) {
        pack(alloc, instance, found)
    } else {
        pack(alloc, instance, plan)
    }
}

/// A legal and packed plan that leaves no more tasks unassigned than the legal plan that is given. It is found by ruin and
/// recreate (G. Schrimpf et al., Record breaking optimization results using the ruin and recreate principle, 2000) with
/// strings of neighbours that go out, and with places passed over now and then (J. Christiaens, G. Vanden Berghe, Slack
/// induction by string removals for vehicle routing problems, 2020). The search ends where no more tasks are unassigned than
/// are enough. It has no clock, and equal calls give equal plans. AllocError where there is no memory.
pub fn rebuild(
    alloc: Global,
    instance: &Instance,
    plan: &Plan,
    enough: u32,
    effort: Effort,
) -> Result<Plan, AllocError>
    requires { IsLegal instance.now plan.now }
    ensures legal { IfOk result (λ p. IsLegal instance.now p) }
    ensures packed { IfOk result (λ p. IsPacked instance.now p) }
    ensures fewer { IfOk result (λ p. unassigned_count p ≤ unassigned_count plan.now) }
    // Where there is nothing to do, the jobs of the plan stay.
    ensures none { effort.looks ≡ 0 → IfOk result (λ p. Keeps plan.now p) }
    ensures enough { unassigned_count plan.now ≤ enough → IfOk result (λ p. Keeps plan.now p) }
{
    if effort.looks == 0 || unassigned(plan) <= enough {
        return pack(alloc, instance, plan);
    }
    let mut search = Search::new(alloc, instance, plan, Old::of(None), effort.seed)?;
    search.run(effort.looks, Some(enough))?;
    let found = search.finish()?;
    packed_best(alloc, instance, &found, plan)
}

/// A legal and packed plan that leaves no more tasks unassigned than the legal plan that is given. The search is that of
/// `rebuild`; of plans that leave as few, it looks for one with many tasks that have the teams of the old plan, and these begin
/// when they do in that, where they can. It has no clock, and equal calls give equal plans. AllocError where there is no memory.
pub fn rebuild_near(
    alloc: Global,
    instance: &Instance,
    plan: &Plan,
    old: &Plan,
    effort: Effort,
) -> Result<Plan, AllocError>
    requires { IsLegal instance.now plan.now }
    ensures legal { IfOk result (λ p. IsLegal instance.now p) }
    ensures packed { IfOk result (λ p. IsPacked instance.now p) }
    ensures fewer { IfOk result (λ p. unassigned_count p ≤ unassigned_count plan.now) }
    // Where there is nothing to do, the jobs of the plan stay.
    ensures none { effort.looks ≡ 0 → IfOk result (λ p. Keeps plan.now p) }
{
    if effort.looks == 0 {
        return pack(alloc, instance, plan);
    }
    let mut search = Search::new(alloc, instance, plan, Old::of(Some(old)), effort.seed)?;
    search.run(effort.looks, None)?;
    let found = search.finish()?;
    packed_best(alloc, instance, &found, plan)
}
