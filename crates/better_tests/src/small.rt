// Plans that are bettered on small days.
ghost use Rattle.std.specs.Prelude.{IfOk};
ghost use Rattle.crew_terms.specs.Legal.{IsLegal};

use crew_fixtures::{crowded_hours, gate_builder, task, team};
use crew_instance::{Builder, Instance, Plan, unassigned};
use crew_terms::{D, Task};
use node_limits::Limits;
use plan_builder::{Use, from_uses, greedy};
use plan_search::{Effort, better, weights_of};
use potentials::Prices;
use std::alloc::Global;
use std::test::Fail;

/// So many iterations, until no more tasks are unassigned than these.
fn effort(iterations: u32, enough: u32) -> Effort<'static> {
    Effort {
        iterations,
        enough,
        weights: None,
    }
}

#[test]
fn leaves_three_of_twelve(rt: HostRuntime) -> Result<(), Fail> {
    let day = crowded_hours(rt.alloc())?;
    let plan = greedy(rt.alloc(), &day)?;
    let found = better(rt.alloc(), &day, &plan, effort(100, 0))?;
    assert!(rt; unassigned(&found) == 3);
    Ok(())
}

/// Two teams, and the task A from 07:00 to 07:30 for one of them and B at 07:30 alone for both, half an hour each.
pub(crate) fn two_tasks(alloc: Global) -> Result<Builder, Fail> {
    let joint = Task {
        earliest: 450,
        teams: 2,
        ..task(b"B")?
    };
    let teams = [team(b"T1")?, team(b"T2")?];
    Ok(gate_builder(alloc, &teams, &[task(b"A")?, joint])?)
}

/// The plan in which the first team begins A so late that B doesn't fit.
pub(crate) fn late_plan(alloc: Global, day: &Instance) -> Result<Plan, Fail>
    ensures { IfOk result (λ p. IsLegal day.now p) }
{
    let late = Use {
        team: 0,
        task: 0,
        start: 450,
        num: 1,
    };
    Ok(from_uses(alloc, day, &[late])?)
}

/// When the first of two tasks is begun.
pub(crate) fn first_start(plan: &Plan) -> Option<u32> {
    if plan.len() != 2 {
        return None;
    }
    plan.start(0)
}

#[test]
fn makes_room_for_a_joint_task(rt: HostRuntime) -> Result<(), Fail> {
    let day = two_tasks(rt.alloc())?.finish()?;
    let plan = late_plan(rt.alloc(), &day)?;
    assert!(rt; unassigned(&plan) == 1 && first_start(&plan) == Some(450));
    let found = better(rt.alloc(), &day, &plan, effort(10, 0))?;
    assert!(rt; unassigned(&found) == 0 && first_start(&found) == Some(420));
    assert!(rt; found.len() == 2);
    assert!(rt; found.teams(1) == [0, 1].as_slice());
    Ok(())
}

#[test]
fn takes_weights(rt: HostRuntime) -> Result<(), Fail> {
    let day = two_tasks(rt.alloc())?.finish()?;
    let plan = late_plan(rt.alloc(), &day)?;
    let weights = [21, 1];
    let weighted = Effort {
        weights: Some(&weights),
        ..effort(10, 0)
    };
    let found = better(rt.alloc(), &day, &plan, weighted)?;
    assert!(rt; unassigned(&found) == 0);
    Ok(())
}

#[test]
fn leaves_a_plan_that_is_good_enough(rt: HostRuntime) -> Result<(), Fail> {
    let day = two_tasks(rt.alloc())?.finish()?;
    let plan = late_plan(rt.alloc(), &day)?;
    for (iterations, enough) in [(0, 0), (10, 1), (10, 2)] {
        let found = better(rt.alloc(), &day, &plan, effort(iterations, enough))?;
        assert!(rt; unassigned(&found) == 1 && first_start(&found) == Some(450));
    }
    Ok(())
}

#[test]
fn frozen_jobs_stay(rt: HostRuntime) -> Result<(), Fail> {
    let mut builder = two_tasks(rt.alloc())?;
    assert!(rt; builder.tasks() == 2);
    builder.freeze(0, 450, &[1])?;
    let day = builder.finish()?;
    let plan = greedy(rt.alloc(), &day)?;
    let found = better(rt.alloc(), &day, &plan, effort(10, 0))?;
    assert!(rt; unassigned(&found) == 1 && first_start(&found) == Some(450));
    Ok(())
}

/// The weights of the tasks where the first has the price of one task, and the second none.
fn weights_at_prices(alloc: Global, day: &Instance) -> Result<Vec<u32>, Fail> {
    let limits = Limits::root(alloc, day)?;
    let mut prices = Prices::zero(alloc, &limits)?;
    if prices.tasks() > 0 {
        prices.set_pi(0, i64::from(D));
    }
    Ok(weights_of(alloc, day, &prices)?)
}

#[test]
fn weighs_tasks_by_their_prices(rt: HostRuntime) -> Result<(), Fail> {
    let day = two_tasks(rt.alloc())?.finish()?;
    let weights = weights_at_prices(rt.alloc(), &day)?;
    assert!(rt; weights.as_slice() == [1, 21].as_slice());
    Ok(())
}
