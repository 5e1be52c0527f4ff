// Masters that are worked out by hand.
use crate::asked::{extra, master_of, price, solve};
use crate::asserts::same;
use crew_fixtures::{joint_task, two_at_once};
use frac_master::{Master, Share, Solved};
use node_limits::{Limits, Pair, Visit};
use std::alloc::Global;
use std::process::Abort;
use std::test::Fail;

/// A task is begun at 07:00.
fn at_seven(task: u32) -> Visit {
    Visit { task, start: 420 }
}

/// The master has these shares of its columns and these unassigned shares, over this denominator.
fn same_shares(
    rt: &impl Abort,
    alloc: Global,
    master: &Master,
    den: i128,
    shares: &[Share],
    left_open: &[i128],
) -> Result<(), Fail> {
    let mut out = Vec::new(alloc);
    let mut left = Vec::new(alloc);
    same(rt, &master.shares(&mut out, &mut left)?, &Ok(den));
    same(rt, &out.as_slice(), &shares);
    same(rt, &left.as_slice(), &left_open);
    Ok(())
}

/// One team can do one of two tasks, so one stays unassigned: value and both prices are 1. The first route enters first, and at the
/// tie of team and task the unused share leaves, which is lower than the unassigned one: so the first task is done.
#[test]
fn one_of_two_tasks(rt: HostRuntime) -> Result<(), Fail> {
    let day = two_at_once(rt.alloc())?;
    let limits = Limits::root(rt.alloc(), &day)?;
    let first = [at_seven(0)];
    let second = [at_seven(1)];
    let mut master = master_of(rt.alloc(), &limits, &[(0, &first), (0, &second)])?;
    same(&rt, &solve(&mut master, 0), &Solved::Spent);
    same(&rt, &master.made(), &0);
    same(&rt, &solve(&mut master, 100), &Solved::Optimal);
    same(&rt, &master.value(), &Ok((1, 1)));
    same(&rt, &price(&master, &limits, 0), &Some(Ok((1, 1))));
    same(&rt, &price(&master, &limits, 1), &Some(Ok((1, 1))));
    let share = Share { column: 0, num: 1 };
    same_shares(&rt, rt.alloc(), &master, 1, &[share], &[0, 1])
}

/// A task needs two teams, and there is a route of one of them: half of the task stays unassigned, and the dual solution
/// is 1/2 for the task and for the worth of the team.
#[test]
fn half_a_joint_task(rt: HostRuntime) -> Result<(), Fail> {
    let day = joint_task(rt.alloc())?;
    let limits = Limits::root(rt.alloc(), &day)?;
    let alone = [at_seven(0)];
    let mut master = master_of(rt.alloc(), &limits, &[(0, &alone)])?;
    same(&rt, &solve(&mut master, 100), &Solved::Optimal);
    same(&rt, &master.value(), &Ok((1, 2)));
    same(&rt, &price(&master, &limits, 0), &Some(Ok((1, 2))));
    let share = Share { column: 0, num: 2 };
    same_shares(&rt, rt.alloc(), &master, 2, &[share], &[1])
}

/// A team is required at a task and has no route: the shortage and the missed part each cost a million, so the price of
/// the task and the extra are a million each. The other task is left unassigned.
#[test]
fn a_required_pair_without_a_route(rt: HostRuntime) -> Result<(), Fail> {
    let day = two_at_once(rt.alloc())?;
    let mut limits = Limits::root(rt.alloc(), &day)?;
    limits.reserve(1)?;
    assert!(rt; matches!(limits.pair(0, 0), Pair::Free));
    limits.set_pair(0, 0, Pair::Required);
    let mut master = master_of(rt.alloc(), &limits, &[])?;
    same(&rt, &solve(&mut master, 100), &Solved::Optimal);
    same(&rt, &master.made(), &1);
    same(&rt, &master.value(), &Ok((2_000_001, 1)));
    same(&rt, &price(&master, &limits, 0), &Some(Ok((1_000_000, 1))));
    same(&rt, &price(&master, &limits, 1), &Some(Ok((1, 1))));
    same(
        &rt,
        &extra(&master, &limits, 0, 0),
        &Some(Ok((1_000_000, 1))),
    );
    same_shares(&rt, rt.alloc(), &master, 1, &[], &[0, 1])
}

/// A route visits A, B and A again, so half of it does A, and half of B stays unassigned: the price of B is 1, and that of
/// A is -1/2, since the team has half a share left.
#[test]
fn a_route_that_visits_a_task_twice(rt: HostRuntime) -> Result<(), Fail> {
    let day = two_at_once(rt.alloc())?;
    let limits = Limits::root(rt.alloc(), &day)?;
    let twice = [at_seven(0), at_seven(1), at_seven(0)];
    let mut master = master_of(rt.alloc(), &limits, &[(0, &twice)])?;
    same(&rt, &solve(&mut master, 100), &Solved::Optimal);
    same(&rt, &master.value(), &Ok((1, 2)));
    same(&rt, &price(&master, &limits, 0), &Some(Ok((-1, 2))));
    same(&rt, &price(&master, &limits, 1), &Some(Ok((2, 2))));
    let share = Share { column: 0, num: 1 };
    same_shares(&rt, rt.alloc(), &master, 2, &[share], &[0, 1])
}
