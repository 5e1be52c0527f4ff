// Tasks are added to a schedule until it is packed.
ghost use Rattle.std.specs.Prelude.{◌≡◌, ◌≤◌, ◌<◌, ℕ, length, None, All, Contains, MatchOption, OnOk};
ghost use Rattle.std.specs.List.Sorted.{IsStrictlyIncreasing};
ghost use Rattle.crew_terms.specs.Instance.{task_of};
ghost use Rattle.crew_terms.specs.Plan.{job_of};
ghost use Rattle.team_days.specs.Adding.{FitsNowhere};
ghost use Rattle.plan_builder.specs.Schedules.{Begins, Extends, HasRoomAt, IsChoiceOf, IsFilled, IsPackedFrom};

use crate::schedule::{Schedule, Teams};
use crew_terms::MOST_TEAMS;
use std::alloc::AllocError;
use team_days::{free_teams_may_begin, jobs_stay};

/// What it costs to give a task to each of the teams.
pub(crate) type Costs = [i128; MOST_TEAMS];

/// The cost of a team, 0 where it has none.
fn cost_of(costs: &Costs, team: u32) -> i128 {
    costs.get(team as usize).copied().unwrap_or(0)
}

/// The place in the list of a team of the greatest cost.
fn dearest(teams: &[u32], costs: &Costs) -> usize
    requires { 0 < length teams.now }
    ensures { result < length teams.now }
{
    let mut dearest = 0;
    for x in 1..teams.len() {
        if cost_of(costs, teams[x]) > cost_of(costs, teams[dearest]) {
            dearest = x;
        }
    }
    dearest
}

/// So many of the teams, those of the least cost.
fn choose(mut teams: Teams, wanted: usize, costs: &Costs) -> Teams
    requires rising { IsStrictlyIncreasing teams.items }
    requires enough { wanted ≤ length teams.items }
    ensures choice { IsChoiceOf result.items teams.items }
    ensures count { length result.items ≡ wanted }
{
    while teams.len() > wanted {
        let at = dearest(teams.as_slice(), costs);
        teams.remove(at);
    }
    teams
}

impl<'i> Schedule<'i> {
    /// What it costs to give task `j` at minute `t` to each of these teams.
    fn costs(&self, j: u32, t: u32, teams: &[u32]) -> Costs
        requires teams { All (λ k. k < length self.now.instance.teams) teams.now }
        requires task { j < length self.now.instance.tasks }
        requires window { t ≤ (task_of self.now.instance j).latest }
    {
        let mut costs = [0; MOST_TEAMS];
        for k in teams {
            if let Some(cost) = costs.get_mut(*k as usize) {
                *cost = self.cost(*k, j, t);
            }
        }
        costs
    }

    /// Has the cheapest of these teams begin task `j` at minute `t`.
    pub(crate) fn begin(
        &mut self,
        j: u32,
        t: u32,
        free: Teams,
        costs: &Costs,
    ) -> Result<(), AllocError>
        requires task { j < length self.old.instance.tasks }
        requires open { job_of self.old.plan j ≡ None }
        requires room { HasRoomAt self.old j t free.items }
        ensures { OnOk result (Begins self.old self.new j) }
    {
        let wanted = self.instance().task(j).teams as usize;
        let teams = choose(free, wanted, costs);
        self.add(j, t, teams.as_slice())?;
        Ok(())
    }

    /// The first minute at which there is room for task `j`, with the teams that are free then.
    fn first_minute(&self, j: u32) -> Option<(u32, Teams)>
        requires { j < length self.now.instance.tasks }
        ensures { MatchOption result (FitsNowhere self.now.instance self.now.plan j)
            (λ room. HasRoomAt self.now j room.0 room.1.items) }
    {
        let task = self.instance().task(j);
        for t in task.earliest..task.latest + 1 {
            let free = self.free_teams(j, t);
            if free.len() >= task.teams as usize {
                return Some((t, free));
            }
        }
        None
    }

    /// Adds task `j` at the first minute at which there is room for it, if it is unassigned.
    pub(crate) fn place(&mut self, j: u32) -> Result<(), AllocError>
        requires { j < length self.old.instance.tasks }
        ensures { OnOk result (IsFilled self.old self.new (λ h. h ≡ j)) }
    {
        jobs_stay();
        if !self.is_open(j) {
            return Ok(());
        }
        let Some((t, free)) = self.first_minute(j) else {
            return Ok(());
        };
        let costs = self.costs(j, t, free.as_slice());
        self.begin(j, t, free, &costs)?;
        Ok(())
    }

    /// Adds these tasks in order, each where there is room for it.
    pub(crate) fn place_all(&mut self, order: &[(u32, u32)]) -> Result<(), AllocError>
        requires { All (λ v. v.1 < length self.old.instance.tasks) order.now }
        ensures { OnOk result (Extends self.old self.new) }
    {
        for (_, j) in order {
            self.place(*j)?;
        }
        Ok(())
    }

    /// Goes through all tasks once, and adds each where there is room for it.
    fn pass(&mut self) -> Result<(), AllocError>
        ensures { OnOk result (IsFilled self.old self.new
            (λ h. h < length self.old.instance.tasks)) }
    {
        for j in 0..self.instance().tasks() as u32 {
            self.place(j)?;
        }
        Ok(())
    }

    /// Adds tasks until none can be added alone. Travel times need not obey the triangle inequality, so that a task more
    /// may make room for another.
    pub(crate) fn fill(&mut self) -> Result<(), AllocError>
        ensures { OnOk result (IsPackedFrom self.old.instance self.old.plan self.new) }
    {
        free_teams_may_begin();
        loop {
            let before = self.unassigned();
            self.pass()?;
            if self.unassigned() == before {
                return Ok(());
            }
        }
    }
}
