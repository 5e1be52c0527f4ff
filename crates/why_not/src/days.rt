// A plan with what each team does in it, so that a team's obstacle is found by halving.
ghost use Rattle.std.specs.Prelude.{◌≡◌, ◌≤◌, ◌<◌, ◌↔◌, length, None, IsTrue};
ghost use Rattle.crew_terms.specs.Instance.{task_of};
ghost use Rattle.crew_terms.specs.Legal.{IsLegal};
ghost use Rattle.crew_terms.specs.Plan.{job_of};
ghost use Rattle.crew_terms.specs.Rules.{IsInstance};
ghost use Rattle.crew_terms.specs.declared.TheConstants.{LAST_MINUTE};
ghost use Rattle.team_days.specs.Obstacles.{obstacle_of};
ghost use Rattle.why_not.specs.Days.{AreDays};
ghost use Rattle.why_not.specs.Fits.{obstacles_at};

use arrayvec::ArrayVec;
use crew_instance::{Instance, Plan, Turn, fill_turns};
use crew_terms::{MOST_TASKS, MOST_TEAMS};
use std::marker::Model;
use team_days::{Obstacle, obstacle_in};

/// What a team does in a plan, in order.
type Day = ArrayVec<Turn, MOST_TASKS>;

/// What keeps each team, in order, from a task at a minute.
pub(crate) type Row = ArrayVec<Obstacle, MOST_TEAMS>;

/// A legal plan of an instance, with what each team does in order. It takes some 205 KB, and no other memory.
#[derive(Drop)]
pub(crate) struct Days<'a> {
    instance: &'a Instance,
    plan: &'a Plan,
    days: ArrayVec<Day, MOST_TEAMS>,
}

impl<'a> Model for Days<'a> {
    ghost use Rattle.why_not.specs.Days.{Planned};

    ghost Value = { Planned };

    ghost use Rattle.why_not.specs.Kept.{kept, IsKept};

    ghost view = { kept };

    ghost invariant = { IsKept };
}

/// What each team does in the plan.
fn days_of(instance: &Instance, plan: &Plan) -> ArrayVec<Day, MOST_TEAMS>
    ensures count { length result.items ≡ length instance.now.teams }
    ensures days { AreDays plan.now result.items }
    ensures instance { IsInstance instance.now }
{
    let mut days = ArrayVec::new();
    for k in 0..instance.teams() as u32 {
        let mut day = ArrayVec::new();
        fill_turns(plan, k, &mut day);
        days.push(day);
    }
    days
}

impl<'a> Days<'a> {
    /// The days of a legal plan.
    pub(crate) fn new(instance: &'a Instance, plan: &'a Plan) -> Days<'a>
        requires { IsLegal instance.now plan.now }
        ensures { result ≡ record { instance = instance.now; plan = plan.now } }
    {
        let days = days_of(instance, plan);
        Days {
            instance,
            plan,
            days,
        }
    }

    /// The instance that the plan is of.
    pub(crate) fn instance(&self) -> &'a Instance
        ensures instance { result.now ≡ self.now.instance }
        ensures limits { IsInstance self.now.instance }
        ensures legal { IsLegal self.now.instance self.now.plan }
    {
        self.instance
    }

    /// The plan.
    pub(crate) fn plan(&self) -> &'a Plan
        ensures plan { result.now ≡ self.now.plan }
        ensures count { length self.now.plan ≡ length self.now.instance.tasks }
    {
        self.plan
    }

    /// What keeps team `k` from task `j` at minute `t`.
    pub(crate) fn obstacle(&self, k: u32, j: u32, t: u32) -> Obstacle
        requires team { k < length self.now.instance.teams }
        requires task { j < length self.now.instance.tasks }
        requires window { t ≤ (task_of self.now.instance j).latest }
        ensures { result ≡ obstacle_of self.now.instance self.now.plan k j t }
    {
        obstacle_in(self.instance, &self.days[k as usize], k, j, t)
    }

    /// What keeps each team, in order, from task `j` at minute `t`.
    pub(crate) fn row(&self, j: u32, t: u32) -> Row
        requires task { j < length self.now.instance.tasks }
        requires window { t ≤ (task_of self.now.instance j).latest }
        ensures row { result.items ≡ obstacles_at self.now.instance self.now.plan j t }
        ensures teams { length result.items ≡ length self.now.instance.teams }
        ensures day { (task_of self.now.instance j).latest ≤ LAST_MINUTE }
    {
        let mut row = ArrayVec::new();
        for k in 0..self.instance.teams() as u32 {
            row.push(self.obstacle(k, j, t));
        }
        row
    }
}
