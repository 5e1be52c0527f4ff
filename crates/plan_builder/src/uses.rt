// A plan from shares of routes.
ghost use Rattle.std.specs.Prelude.{◌≡◌, ◌≤◌, ◌<◌, length, IfOk, OnOk};
ghost use Rattle.crew_terms.specs.Legal.{IsLegal, IsPacked};
ghost use Rattle.plan_builder.specs.Schedules.{Extends};

use crate::build::{by_latest, frozen_plan};
use crate::place::Costs;
use crate::schedule::Schedule;
use branch_choice::Use;
use crew_instance::{Instance, Plan};
use crew_terms::MOST_TEAMS;
use std::alloc::{AllocError, Global};

/// What it costs to give the task of a use, at its start, to each team: the less, the greater the team's share in it.
fn costs_of(uses: &[Use], wanted: &Use) -> Costs {
    let mut costs = [0i128; MOST_TEAMS];
    for other in uses {
        if other.task == wanted.task && other.start == wanted.start {
            if let Some(cost) = costs.get_mut(other.team as usize) {
                *cost = cost.saturating_sub(other.num);
            }
        }
    }
    costs
}

impl<'i> Schedule<'i> {
    /// Begins the task of a use at its start with the teams of the greatest shares in it, if the task is unassigned and
    /// enough teams can take it into their days then.
    fn follow(&mut self, uses: &[Use], wanted: &Use) -> Result<(), AllocError>
        ensures { OnOk result (Extends self.old self.new) }
    {
        if wanted.task as usize >= self.instance().tasks() || !self.is_open(wanted.task) {
            return Ok(());
        }
        let task = self.instance().task(wanted.task);
        if wanted.start < task.earliest || wanted.start > task.latest {
            return Ok(());
        }
        let free = self.free_teams(wanted.task, wanted.start);
        if free.len() < task.teams as usize {
            return Ok(());
        }
        self.begin(wanted.task, wanted.start, free, &costs_of(uses, wanted))?;
        Ok(())
    }

    /// Follows the uses, that of the greatest share first.
    fn follow_all(&mut self, alloc: Global, uses: &[Use]) -> Result<(), AllocError>
        ensures { OnOk result (Extends self.old self.new) }
    {
        let mut order = uses.to_vec(alloc)?;
        order.sort_by_key(|u| u.num)?;
        for wanted in order.iter().rev() {
            self.follow(uses, wanted)?;
        }
        Ok(())
    }
}

/// A legal and packed plan that follows shares of routes: to the frozen jobs the uses are added that fit, those of the
/// greatest shares first, and then each other task that fits.
pub fn from_uses(alloc: Global, instance: &Instance, uses: &[Use]) -> Result<Plan, AllocError>
    ensures legal { IfOk result (λ p. IsLegal instance.now p) }
    ensures packed { IfOk result (λ p. IsPacked instance.now p) }
{
    let mut schedule = Schedule::new(alloc, instance, frozen_plan(alloc, instance)?)?;
    schedule.follow_all(alloc, uses)?;
    schedule.place_all(by_latest(alloc, instance)?.as_slice())?;
    schedule.fill()?;
    Ok(schedule.into_plan())
}
