// A legal plan while tasks are added to it.
ghost use Rattle.std.specs.Prelude.{◌≡◌, ◌≤◌, ◌<◌, ◌↔◌, ℕ, length, None, OnErr, OnOk, IfOk, IsTrue, Contains};
ghost use Rattle.crew_terms.specs.Instance.{task_of};
ghost use Rattle.crew_terms.specs.Legal.{IsLegal};
ghost use Rattle.crew_terms.specs.Minutes.{IsListOf};
ghost use Rattle.crew_terms.specs.Plan.{Job, Plan as Jobs, job_of, unassigned_count};
ghost use Rattle.crew_terms.specs.Rules.{IsInstance};
ghost use Rattle.team_days.specs.Adding.{AreFree, IsAddition};
ghost use Rattle.team_days.specs.Free.{IsFreeFor};
ghost use Rattle.plan_builder.specs.Schedules.{AreDays, IsDayAt, with};

use arrayvec::ArrayVec;
use crew_instance::{Instance, Plan, Turn, fill_turns, unassigned};
use crew_terms::{MOST_TASKS, MOST_TEAMS};
use std::alloc::{AllocError, Global};
use std::marker::Model;
use team_days::{free_teams_may_begin, idle_in, is_free_in, other_days_stay};

/// What a team does in a plan, in order.
type Day = ArrayVec<Turn, MOST_TASKS>;

/// Some of the teams.
pub(crate) type Teams = ArrayVec<u32, MOST_TEAMS>;

/// A skill that a team has and the task doesn't need counts as so many minutes of waiting.
const COST_OF_A_SKILL: u32 = 30;

/// A legal plan of an instance, with what each team does in order.
#[derive(Drop)]
pub(crate) struct Schedule<'i> {
    instance: &'i Instance,
    plan: Plan,
    days: Vec<Day>,
}

impl<'i> Model for Schedule<'i> {
    ghost use Rattle.plan_builder.specs.Schedules.{Schedule as Scheduled};

    ghost Value = { Scheduled };

    ghost use Rattle.plan_builder.specs.Kept.{kept, IsKept};

    ghost view = { kept };

    ghost invariant = { IsKept };
}

/// What each team does in the plan.
fn days_of(alloc: Global, instance: &Instance, plan: &Plan) -> Result<Vec<Day>, AllocError>
    ensures count { IfOk result (λ days. length days.items ≡ length instance.now.teams) }
    ensures days { IfOk result (λ days. AreDays plan.now days.items) }
    ensures instance { IsInstance instance.now }
{
    let teams = instance.teams();
    let mut days = Vec::with_capacity(alloc, teams)?;
    for k in 0..teams as u32 {
        let mut day = ArrayVec::new();
        fill_turns(plan, k, &mut day);
        days.push(day)?;
    }
    Ok(days)
}

/// Looks anew what these teams do in the plan, where the days of the others are right.
fn look_anew(plan: &Plan, teams: &[u32], days: &mut [Day])
    requires known { (k : ℕ) → Contains teams.now k → k < length days.old }
    requires others { (k : ℕ) → ¬ (Contains teams.now k) → IsDayAt plan.now days.old k }
    ensures { AreDays plan.now days.new }
{
    for k in teams {
        fill_turns(plan, *k, &mut days[*k as usize]);
    }
}

impl<'i> Schedule<'i> {
    /// The schedule of a legal plan.
    pub(crate) fn new(
        alloc: Global,
        instance: &'i Instance,
        plan: Plan,
    ) -> Result<Schedule<'i>, AllocError>
        requires { IsLegal instance.now plan }
        ensures { IfOk result (λ s. s ≡ record { instance = instance.now; plan = plan }) }
    {
        let days = days_of(alloc, instance, &plan)?;
        Ok(Schedule {
            instance,
            plan,
            days,
        })
    }

    /// The instance that the plan is of.
    pub(crate) fn instance(&self) -> &'i Instance
        ensures instance { result.now ≡ self.now.instance }
        ensures limits { IsInstance self.now.instance }
        ensures legal { IsLegal self.now.instance self.now.plan }
    {
        self.instance
    }

    /// How many tasks are unassigned.
    pub(crate) fn unassigned(&self) -> u32
        ensures count { result ≡ unassigned_count self.now.plan }
        ensures legal { IsLegal self.now.instance self.now.plan }
    {
        unassigned(&self.plan)
    }

    /// Whether task `j` is unassigned.
    pub(crate) fn is_open(&self, j: u32) -> bool
        requires { j < length self.now.instance.tasks }
        ensures open { IsTrue result ↔ (job_of self.now.plan j ≡ None) }
        ensures known { j < length self.now.plan }
    {
        self.plan.start(j).is_none()
    }

    /// Whether team `k` can take task `j` at minute `t` into its day.
    fn is_free(&self, k: u32, j: u32, t: u32) -> bool
        requires team { k < length self.now.instance.teams }
        requires task { j < length self.now.instance.tasks }
        requires window { t ≤ (task_of self.now.instance j).latest }
        ensures { IsTrue result ↔ IsFreeFor self.now.instance self.now.plan k j t }
    {
        is_free_in(self.instance, &self.days[k as usize], k, j, t)
    }

    /// The teams that can take task `j` at minute `t` into their days, in order.
    pub(crate) fn free_teams(&self, j: u32, t: u32) -> Teams
        requires task { j < length self.now.instance.tasks }
        requires window { t ≤ (task_of self.now.instance j).latest }
        ensures { IsListOf (λ k. IsFreeFor self.now.instance self.now.plan k j t) result.items }
    {
        let mut free = ArrayVec::new();
        for k in 0..self.instance.teams() as u32 {
            if self.is_free(k, j, t) {
                free.push(k);
            }
        }
        free
    }

    /// What it costs to give team `k` task `j` at minute `t`: the minutes that it waits, and skills that others may need.
    pub(crate) fn cost(&self, k: u32, j: u32, t: u32) -> i128
        requires team { k < length self.now.instance.teams }
        requires task { j < length self.now.instance.tasks }
        requires window { t ≤ (task_of self.now.instance j).latest }
    {
        let idle = idle_in(self.instance, &self.days[k as usize], k, j, t);
        let team = self.instance.team(k);
        let task = self.instance.task(j);
        let spare = (team.skills & !task.skills).count_ones();
        i128::from(idle.saturating_add(spare.saturating_mul(COST_OF_A_SKILL)))
    }

    /// Has these teams begin task `j` at minute `t`, each of which can take it into its day.
    pub(crate) fn add(&mut self, j: u32, t: u32, teams: &[u32]) -> Result<(), AllocError>
        requires addition { let job : Job = record { start = t; teams = teams.now } in
            IsAddition self.old.instance self.old.plan j job }
        requires free { let job : Job = record { start = t; teams = teams.now } in
            AreFree self.old.instance self.old.plan j job }
        ensures ok { OnOk result (self.new ≡ with self.old j
            (record { start = t; teams = teams.now })) }
        ensures err { OnErr result (self.new ≡ self.old) }
    {
        free_teams_may_begin();
        other_days_stay();
        self.plan.assign(j, t, teams)?;
        look_anew(&self.plan, teams, &mut self.days);
        Ok(())
    }

    /// The plan, which is legal.
    pub(crate) fn into_plan(self) -> Plan
        ensures plan { result ≡ self.entry.plan }
        ensures legal { IsLegal self.entry.instance result }
    {
        self.plan
    }
}
