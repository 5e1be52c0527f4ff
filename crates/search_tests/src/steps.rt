// Searches step by step: what is left, and what is proved.
use crate::asserts::same;
use crate::orders::NO_ROUNDS;
use column_arena::VecColumns;
use crew_fixtures::{FixtureFault, gate_builder, gate_task, hardly_overlapping, team};
use crew_instance::{Instance, unassigned};
use search_core::Search;
use std::alloc::{AllocError, Global};
use std::process::Abort;
use std::test::Fail;

/// Where a search stands between two steps.
#[derive(Clone, Copy, Debug, PartialEq, Eq)]
struct Standing {
    open: usize,
    left: u32,
    bound: u32,
    best: u32,
}

fn told(search: &Search<'_>) -> Standing {
    Standing {
        open: search.open_len(),
        left: search.left(),
        bound: search.bound(),
        best: search.best(),
    }
}

/// Two teams, and two tasks of one minute. The job of the first is frozen to the first team. The second is before the shifts.
fn all_decided(alloc: Global) -> Result<Instance, FixtureFault> {
    let tasks = [gate_task(b"A", 1, 420)?, gate_task(b"B", 1, 300)?];
    let mut day = gate_builder(alloc, &[team(b"T1")?, team(b"T2")?], &tasks)?;
    day.freeze(0, 420, &[0])?;
    Ok(day.finish()?)
}

#[test]
fn a_step_on_a_decided_node_closes_it(rt: HostRuntime) -> Result<(), Fail> {
    let instance = all_decided(rt.alloc())?;
    let mut columns = VecColumns::new(rt.alloc());
    let mut search = Search::new(rt.alloc(), &instance, 3, None, NO_ROUNDS)?;
    let start = Standing {
        open: 1,
        left: 3,
        bound: 0,
        best: 1,
    };
    same(&rt, &told(&search), &start);
    if let Some(key) = search.due() {
        search.step(key, &mut columns)?;
    }
    let end = Standing {
        open: 0,
        left: 2,
        bound: 1,
        best: 1,
    };
    same(&rt, &told(&search), &end);
    let outcome = search.close()?;
    same(&rt, &(outcome.tree.splits(), outcome.tree.len()), &(0, 1));
    Ok(())
}

/// Takes three steps at most, while they are due, and sees after each that one less is left, that no bound fell, and that no plan is worse.
fn step_on(
    rt: &impl Abort,
    search: &mut Search<'_>,
    columns: &mut VecColumns,
    pivots: u32,
) -> Result<(), AllocError> {
    for _ in 0..3 {
        let Some(key) = search.due() else {
            break;
        };
        let before = told(search);
        search.step_with(key, columns, pivots)?;
        let after = told(search);
        same(rt, &after.left, &before.left.saturating_sub(1));
        assert!(rt; before.bound <= after.bound && after.best <= before.best);
    }
    Ok(())
}

#[test]
fn each_step_is_counted_and_no_bound_falls(rt: HostRuntime) -> Result<(), Fail> {
    let instance = hardly_overlapping(rt.alloc(), 480)?;
    let mut columns = VecColumns::new(rt.alloc());
    let mut search = Search::new(rt.alloc(), &instance, 3, None, NO_ROUNDS)?;
    step_on(&rt, &mut search, &mut columns, 20_000)?;
    let outcome = search.close()?;
    same(&rt, &(outcome.bound, unassigned(&outcome.plan)), &(1, 1));
    same(&rt, &(outcome.tree.splits(), outcome.tree.len()), &(1, 3));
    Ok(())
}
