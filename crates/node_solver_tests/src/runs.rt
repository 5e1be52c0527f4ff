// The run of a node's master over columns.
use crate::asked::root_of;
use crate::asserts::same;
use column_arena::{Columns, VecColumns};
use crew_fixtures::{two_at_once, visit};
use frac_master::Share;
use master_run::{Halt, Run, Solution};
use node_limits::Limits;
use potentials::Prices;
use std::process::Abort;
use std::test::Fail;

/// What one task costs.
const TASK: i64 = 840_000_000;

/// The prices of two tasks are these.
fn same_prices(rt: &impl Abort, prices: &Prices, wanted: [i64; 2]) {
    assert!(rt; prices.tasks() == 2);
    same(rt, &prices.pi(0), &wanted[0]);
    same(rt, &prices.pi(1), &wanted[1]);
}

/// The shares of columns and what is left unassigned are these.
fn same_solution(
    rt: &impl Abort,
    told: &Solution,
    den: i128,
    shares: &[Share],
    left_open: &[i128],
) {
    same(rt, &told.den, &den);
    same(rt, &told.shares.as_slice(), &shares);
    same(rt, &told.left_open.as_slice(), &left_open);
}

/// One team can do one of two tasks: it does the first, since its column entered first, and both prices are those of a task.
#[test]
fn a_run_over_two_columns(rt: HostRuntime) -> Result<(), Fail> {
    let day = two_at_once(rt.alloc())?;
    let limits = root_of(rt.alloc(), &day)?;
    let mut columns = VecColumns::new(rt.alloc());
    columns.add(0, &[visit(0, 420)])?;
    columns.add(0, &[visit(1, 420)])?;
    let run = Run::over(rt.alloc(), &limits, &columns, 100)?;
    same(&rt, &run.ids(), &[0, 1].as_slice());
    assert!(rt; run.left() < 100);
    same_prices(&rt, &run.prices(rt.alloc(), &limits)?, [TASK, TASK]);
    let first = Share { column: 0, num: 1 };
    same_solution(&rt, &run.solution(rt.alloc())?, 1, &[first], &[0, 1]);
    Ok(())
}

/// A run that may make no pivot is spent, and so is one that may make as many as it needs: none is left at its optimum.
#[test]
fn a_run_without_pivots(rt: HostRuntime) -> Result<(), Fail> {
    let day = two_at_once(rt.alloc())?;
    let limits = root_of(rt.alloc(), &day)?;
    let columns = VecColumns::new(rt.alloc());
    let needed = 100
        - Run::over(rt.alloc(), &limits, &columns, 100)?
            .left()
            .min(100);
    for pivots in [0, needed] {
        let halt = Run::over(rt.alloc(), &limits, &columns, pivots).err();
        same(&rt, &halt, &Some(Halt::Spent));
    }
    Ok(())
}
