// What steps make of nodes.
ghost use Rattle.std.specs.Prelude.{◌≢◌, IfOk};
ghost use Rattle.search_terms.specs.Inside.{IsNode};

use crate::asked::{
    Ended, Outcome, ascent_alone, cut_at, outcome_at, outcome_of, pivots_alone, plan_leaving,
    root_of, scout_alone, step_by, step_of,
};
use crate::asserts::same;
use column_arena::{Columns, VecColumns};
use crew_fixtures::{crowded_hours, hardly_overlapping, one_task, there_and_back, two_at_once};
use crew_instance::Instance;
use crew_terms::{Choice, Pair};
use node_limits::Limits;
use node_solver::{Effort, NodeEnd, Share, Why};
use search_laws::search_nodes;
use std::alloc::{AllocError, Global};
use std::process::Abort;
use std::test::Fail;

/// A step at the root comes to this.
fn comes_to(
    rt: &impl Abort,
    alloc: Global,
    day: &Instance,
    best: u32,
    effort: &Effort,
    wanted: &Outcome,
) -> Result<(), Fail> {
    let limits = root_of(alloc, day)?;
    same(rt, &outcome_at(rt, alloc, &limits, best, effort)?, wanted);
    Ok(())
}

/// No plan, and the node is closed by prices that prove so many tasks unassigned.
fn closed(proved: u32) -> Outcome {
    Outcome {
        unassigned: None,
        ended: Ended::Closed(proved),
    }
}

/// The task of both teams is begun at one minute by the one and at another by the other. Each has one route, which is taken
/// whole: nothing is left of the task, and the prices prove nothing. The cut is halfway between the two minutes.
fn splits_by_two_routes(rt: &impl Abort, alloc: Global, effort: &Effort) -> Result<(), Fail> {
    let day = hardly_overlapping(alloc, 480)?;
    let limits = root_of(alloc, &day)?;
    let best = plan_leaving(alloc, &day, 1)?;
    let mut columns = VecColumns::new(alloc);
    let step = step_of(rt, alloc, &limits, &best, &mut columns, effort)?;
    let wanted = Outcome {
        unassigned: None,
        ended: Ended::Loose(Choice::Window { task: 0, cut: 435 }),
    };
    same(rt, &outcome_of(alloc, &limits, &step)?, &wanted);
    same(rt, &columns.len(), &2);
    shares_both(rt, &step.end)
}

/// The rounds of the master find both routes, and so does a scout.
#[test]
fn two_whole_routes_split_the_root(rt: HostRuntime) -> Result<(), Fail> {
    splits_by_two_routes(&rt, rt.alloc(), &pivots_alone(20_000))?;
    splits_by_two_routes(&rt, rt.alloc(), &scout_alone(10, 20_000))
}

/// The split is loose by two whole routes, and leaves no part of its task unassigned.
fn shares_both(rt: &impl Abort, end: &NodeEnd) -> Result<(), Fail> {
    let NodeEnd::Split { why, .. } = end else {
        return Err("closed")?;
    };
    let Why::Loose {
        den,
        shares,
        left_open,
    } = why
    else {
        return Err("not loose")?;
    };
    let wanted = [0, 1].map(|column| Share { column, num: *den });
    same(rt, &shares.as_slice(), &wanted.as_slice());
    same(rt, &left_open.as_slice(), &[0].as_slice());
    Ok(())
}

/// Where another cut is wanted, the same two routes split the root by that.
#[test]
fn the_root_is_split_by_a_wanted_cut(rt: HostRuntime) -> Result<(), Fail> {
    let day = hardly_overlapping(rt.alloc(), 480)?;
    let limits = root_of(rt.alloc(), &day)?;
    let best = plan_leaving(rt.alloc(), &day, 1)?;
    let mut columns = VecColumns::new(rt.alloc());
    let effort = pivots_alone(20_000);
    let choice = cut_at(&limits, 0, 440);
    let step = step_by(
        &rt,
        rt.alloc(),
        &limits,
        &best,
        &mut columns,
        &effort,
        choice,
    )?;
    let wanted = Outcome {
        unassigned: None,
        ended: Ended::Loose(Choice::Window { task: 0, cut: 440 }),
    };
    same(&rt, &outcome_of(rt.alloc(), &limits, &step)?, &wanted);
    shares_both(&rt, &step.end)
}

/// Without a pivot the run is spent.
#[test]
fn no_pivots_are_spent(rt: HostRuntime) -> Result<(), Fail> {
    let day = hardly_overlapping(rt.alloc(), 480)?;
    let wanted = Outcome {
        unassigned: None,
        ended: Ended::Spent(Choice::Window { task: 0, cut: 450 }),
    };
    comes_to(&rt, rt.alloc(), &day, 1, &pivots_alone(0), &wanted)
}

/// In each hour one of four tasks is too many for three teams: the master's prices show it, and so do those of an ascent, and
/// those of a scout.
#[test]
fn three_of_twelve_stay_unassigned(rt: HostRuntime) -> Result<(), Fail> {
    let day = crowded_hours(rt.alloc())?;
    comes_to(&rt, rt.alloc(), &day, 3, &pivots_alone(20_000), &closed(3))?;
    comes_to(&rt, rt.alloc(), &day, 3, &ascent_alone(), &closed(3))?;
    comes_to(&rt, rt.alloc(), &day, 3, &scout_alone(0, 0), &closed(3))
}

/// A route from the first task to the second and back serves both of the teams that the first one needs, so that no prices
/// prove a task unassigned.
#[test]
fn a_route_there_and_back_splits_the_root(rt: HostRuntime) -> Result<(), Fail> {
    let day = there_and_back(rt.alloc())?;
    let limits = root_of(rt.alloc(), &day)?;
    let told = outcome_at(&rt, rt.alloc(), &limits, 1, &pivots_alone(20_000))?;
    same(&rt, &told.unassigned, &None);
    assert!(rt;
        matches!(told.ended, Ended::Loose(Choice::Window { task: 0, .. })),
        "{told:?}"
    );
    Ok(())
}

/// A plan that does all leaves nothing to be proved.
#[test]
fn a_plan_that_does_all_closes_the_root(rt: HostRuntime) -> Result<(), Fail> {
    let day = one_task(rt.alloc())?;
    let wanted = Outcome {
        unassigned: Some(0),
        ended: Ended::Closed(0),
    };
    comes_to(&rt, rt.alloc(), &day, 1, &pivots_alone(20_000), &wanted)?;
    comes_to(&rt, rt.alloc(), &day, 1, &ascent_alone(), &wanted)
}

/// Decides a free pair.
fn decide(
    rt: &impl Abort,
    limits: &mut Limits<'_>,
    k: u32,
    j: u32,
    to: Pair,
) -> Result<(), AllocError>
    requires node { IsNode limits.old.limits }
    requires decided { to ≢ Pair.Free }
    ensures { IsNode limits.new.limits }
{
    search_nodes();
    let instance = limits.instance();
    assert!(rt; (k as usize) < instance.teams() && (j as usize) < instance.tasks());
    assert!(rt; limits.pair(k, j) == Pair::Free);
    limits.reserve(1)?;
    limits.set_pair(k, j, to);
    Ok(())
}

/// The node below the root in which the first team does the first task and not the second.
fn decided<'i>(rt: &impl Abort, alloc: Global, day: &'i Instance) -> Result<Limits<'i>, AllocError>
    ensures { IfOk result (λ n. IsNode n.limits) }
{
    let mut limits = root_of(alloc, day)?;
    decide(rt, &mut limits, 0, 0, Pair::Required)?;
    decide(rt, &mut limits, 0, 1, Pair::Forbidden)?;
    Ok(limits)
}

/// The team is to do the first of two tasks, and not the second: what is left is one plan, which leaves a task unassigned.
#[test]
fn a_decided_node_has_one_plan(rt: HostRuntime) -> Result<(), Fail> {
    let day = two_at_once(rt.alloc())?;
    let limits = decided(&rt, rt.alloc(), &day)?;
    let told = outcome_at(&rt, rt.alloc(), &limits, 2, &pivots_alone(20_000))?;
    same(&rt, &told.unassigned, &Some(1));
    same(&rt, &told.ended, &Ended::Closed(1));
    let again = outcome_at(&rt, rt.alloc(), &limits, 1, &pivots_alone(20_000))?;
    same(&rt, &again, &closed(1));
    Ok(())
}
