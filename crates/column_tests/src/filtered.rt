// The columns that are routes in the limits of a node.
use crate::asserts::same;
use bumpalo::Bump;
use column_arena::{ArenaColumns, Columns, VecColumns, legal_in};
use crew_fixtures::{hardly_overlapping, two_at_once, visit};
use crew_terms::Pair;
use node_limits::Limits;
use std::alloc::Global;
use std::process::Abort;
use std::test::Fail;

/// Of the columns of two tasks, the one whose pair is forbidden is left out.
fn assert_forbidden<C: Columns>(
    rt: &impl Abort,
    alloc: Global,
    columns: &mut C,
) -> Result<(), Fail> {
    let day = two_at_once(alloc)?;
    let mut limits = Limits::root(alloc, &day)?;
    limits.reserve(1)?;
    for task in 0..2 {
        columns.add(0, &[visit(task, 420)])?;
    }
    let mut out = Vec::new(alloc);
    legal_in(&limits, columns, &mut out)?;
    same(rt, &out.as_slice(), &[0, 1].as_slice());
    assert!(rt; matches!(limits.pair(0, 0), Pair::Free));
    limits.set_pair(0, 0, Pair::Forbidden);
    legal_in(&limits, columns, &mut out)?;
    same(rt, &out.as_slice(), &[1].as_slice());
    Ok(())
}

/// Of the columns of two teams, the one that begins before the node's window is left out, and so is that of a team that
/// the instance does not have.
fn assert_outside<C: Columns>(rt: &impl Abort, alloc: Global, columns: &mut C) -> Result<(), Fail> {
    let day = hardly_overlapping(alloc, 480)?;
    let mut limits = Limits::root(alloc, &day)?;
    limits.reserve(1)?;
    for (team, start) in [(0, 420), (1, 450), (2, 450)] {
        columns.add(team, &[visit(0, start)])?;
    }
    let (from, until) = limits.window(0);
    assert!(rt; from == 420);
    assert!(rt; until == 480);
    limits.set_window(0, 436, 480);
    let mut out = Vec::new(alloc);
    legal_in(&limits, columns, &mut out)?;
    same(rt, &out.as_slice(), &[1].as_slice());
    Ok(())
}

#[test]
fn only_routes_of_the_node_are_given(rt: HostRuntime) -> Result<(), Fail> {
    let alloc = rt.alloc();
    let arena = Bump::new(alloc);
    assert_forbidden(&rt, alloc, &mut VecColumns::new(alloc))?;
    assert_forbidden(&rt, alloc, &mut ArenaColumns::new(alloc, &arena))?;
    assert_outside(&rt, alloc, &mut VecColumns::new(alloc))?;
    assert_outside(&rt, alloc, &mut ArenaColumns::new(alloc, &arena))
}
