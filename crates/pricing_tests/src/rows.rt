// Rows with known answers.
use crate::asserts::same;
use crate::priced::{Offer, filled, potentials_at, priced, prices_of};
use crew_fixtures::{far_gates, gate_instance, one_task, task, team, two_at_once, visit};
use crew_instance::{Task, Team};
use label_pricing::{Pricer, alike};
use node_limits::Limits;
use potentials::Table;
use std::test::Fail;

const TASK: i64 = 840_000_000;

/// What is paid where no visit is required.
fn paid(list: &[i64]) -> Offer<'_> {
    Offer { list, extra: 0 }
}

#[test]
fn takes_one_of_two_at_once(rt: HostRuntime) -> Result<(), Fail> {
    let day = two_at_once(rt.alloc())?;
    let root = Limits::root(rt.alloc(), &day)?;
    assert!(rt; day.teams() == 1);
    let (worth, route) = priced(&rt, &root, 0, paid(&[TASK, TASK]))?;
    same(&rt, &worth, &TASK);
    same(&rt, &route.len(), &1);
    same(&rt, &route.first().map(|v| v.start), &Some(420));
    Ok(())
}

#[test]
fn takes_all_three(rt: HostRuntime) -> Result<(), Fail> {
    let day = far_gates(rt.alloc())?;
    let root = Limits::root(rt.alloc(), &day)?;
    assert!(rt; day.teams() == 1);
    let (worth, route) = priced(&rt, &root, 0, paid(&[TASK, TASK, TASK]))?;
    same(&rt, &worth, &(3 * TASK));
    same(
        &rt,
        &route.as_slice(),
        &[visit(0, 420), visit(1, 440), visit(2, 460)].as_slice(),
    );
    Ok(())
}

#[test]
fn can_still_earn_what_is_ahead(rt: HostRuntime) -> Result<(), Fail> {
    let day = far_gates(rt.alloc())?;
    let root = Limits::root(rt.alloc(), &day)?;
    assert!(rt; day.teams() == 1);
    let visits = [visit(0, 420), visit(1, 440), visit(2, 460)];
    let told = potentials_at(rt.alloc(), &root, 0, &[TASK, TASK, TASK], &visits)?;
    same(
        &rt,
        &told.as_slice(),
        &[Some(2_520_000_000), Some(1_680_000_000), Some(840_000_000)].as_slice(),
    );
    Ok(())
}

/// One task, which may begin from minute 420 to 450.
#[test]
fn fills_a_run_of_minutes_alone(rt: HostRuntime) -> Result<(), Fail> {
    let day = one_task(rt.alloc())?;
    let told = filled(rt.alloc(), &day, 421, 440, &[420, 421, 440, 441, 450, 451])?;
    same(
        &rt,
        &told.as_slice(),
        &[Some(0), Some(7), Some(7), Some(0), Some(0), None].as_slice(),
    );
    Ok(())
}

#[test]
fn takes_one_where_the_middle_costs(rt: HostRuntime) -> Result<(), Fail> {
    let day = far_gates(rt.alloc())?;
    let root = Limits::root(rt.alloc(), &day)?;
    assert!(rt; day.teams() == 1);
    let (worth, route) = priced(&rt, &root, 0, paid(&[TASK, -2 * TASK, TASK]))?;
    same(&rt, &worth, &TASK);
    same(&rt, &route.len(), &1);
    Ok(())
}

#[test]
fn comes_back_to_a_task(rt: HostRuntime) -> Result<(), Fail> {
    let first = Task {
        latest: 500,
        ..task(b"A")?
    };
    let second = Task {
        latest: 500,
        ..task(b"B")?
    };
    let day = gate_instance(rt.alloc(), &[team(b"T1")?], &[first, second])?;
    let root = Limits::root(rt.alloc(), &day)?;
    assert!(rt; day.teams() == 1);
    let (worth, route) = priced(&rt, &root, 0, paid(&[1, 1]))?;
    same(&rt, &worth, &3);
    same(&rt, &route.len(), &3);
    Ok(())
}

#[test]
fn proves_one_of_two_at_once(rt: HostRuntime) -> Result<(), Fail> {
    let day = two_at_once(rt.alloc())?;
    let root = Limits::root(rt.alloc(), &day)?;
    let prices = prices_of(rt.alloc(), &root, &[TASK, TASK])?;
    let mut pricer = Pricer::reserve(rt.alloc(), &day)?;
    let found = pricer.proved(&root, &prices);
    same(&rt, &found.bound, &i128::from(TASK));
    same(&rt, &found.count, &1);
    Ok(())
}

#[test]
fn likes_are_told(rt: HostRuntime) -> Result<(), Fail> {
    let late = Team {
        from: 420,
        ..team(b"T3")?
    };
    let day = gate_instance(
        rt.alloc(),
        &[team(b"T1")?, team(b"T2")?, late],
        &[task(b"A")?],
    )?;
    let root = Limits::root(rt.alloc(), &day)?;
    assert!(rt; day.teams() == 3);
    same(&rt, &alike(&root, 0, 1), &true);
    same(&rt, &alike(&root, 0, 2), &false);
    Ok(())
}

/// Two teams that are alike, and one that comes too late for the one task.
#[test]
fn tells_worths_team_by_team(rt: HostRuntime) -> Result<(), Fail> {
    let late = Team {
        from: 445,
        ..team(b"T3")?
    };
    let day = gate_instance(
        rt.alloc(),
        &[team(b"T1")?, team(b"T2")?, late],
        &[task(b"A")?],
    )?;
    let root = Limits::root(rt.alloc(), &day)?;
    let mut pricer = Pricer::reserve(rt.alloc(), &day)?;
    same(&rt, &pricer.worths().is_empty(), &true);
    let _proved = pricer.proved(&root, &prices_of(rt.alloc(), &root, &[TASK])?);
    same(&rt, &pricer.worths(), &[TASK, TASK, 0].as_slice());
    let _proved = pricer.proved(&root, &prices_of(rt.alloc(), &root, &[-5])?);
    same(&rt, &pricer.worths(), &[0, 0, 0].as_slice());
    Ok(())
}

/// One task, which may begin at 31 minutes.
#[test]
fn counts_the_minutes_that_are_looked_at(rt: HostRuntime) -> Result<(), Fail> {
    let day = one_task(rt.alloc())?;
    let root = Limits::root(rt.alloc(), &day)?;
    let prices = prices_of(rt.alloc(), &root, &[TASK])?;
    let mut pricer = Pricer::reserve(rt.alloc(), &day)?;
    same(&rt, &pricer.looks(), &0);
    let _worth = pricer.price(&root, 0, &prices);
    same(&rt, &pricer.looks(), &31);
    let mut table = Table::reserve(rt.alloc(), &day)?;
    let _worth = pricer.price_with(&root, 0, &prices, &mut table);
    same(&rt, &pricer.looks(), &62);
    let _proved = pricer.proved(&root, &prices);
    same(&rt, &pricer.looks(), &62);
    Ok(())
}
