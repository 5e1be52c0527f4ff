// Columns as they are added and found.
use crate::asserts::same;
use bumpalo::Bump;
use column_arena::{ArenaColumns, Columns, VecColumns};
use crew_fixtures::visit;
use std::process::Abort;
use std::test::Fail;

/// The routes of two teams to one task: each team has its list, and an equal route gets no second number.
fn assert_two<C: Columns>(rt: &impl Abort, columns: &mut C) -> Result<(), Fail> {
    let second = [visit(0, 450)];
    same(rt, &columns.add(0, &[visit(0, 420)])?, &0);
    same(rt, &columns.add(1, &second)?, &1);
    same(rt, &columns.using(0, 0), &[0].as_slice());
    same(rt, &columns.using(1, 0), &[1].as_slice());
    assert!(rt; columns.using(2, 0).is_empty());
    same(rt, &columns.add(1, &second)?, &1);
    assert!(rt; columns.len() == 2);
    same(rt, &columns.team(1), &1);
    same(rt, &columns.visits(1), &second.as_slice());
    Ok(())
}

/// A route that comes to a task twice stands once in the task's list.
fn assert_tour<C: Columns>(rt: &impl Abort, columns: &mut C) -> Result<(), Fail> {
    let tour = [visit(3, 420), visit(5, 480), visit(3, 540)];
    same(rt, &columns.add(2, &tour[..2])?, &0);
    same(rt, &columns.add(2, &tour)?, &1);
    same(rt, &columns.add(2, &tour[1..2])?, &2);
    same(rt, &columns.using(2, 3), &[0, 1].as_slice());
    same(rt, &columns.using(2, 5), &[0, 1, 2].as_slice());
    Ok(())
}

#[test]
fn columns_are_numbered_and_found(rt: HostRuntime) -> Result<(), Fail> {
    let alloc = rt.alloc();
    let arena = Bump::new(alloc);
    assert_two(&rt, &mut VecColumns::new(alloc))?;
    assert_two(&rt, &mut ArenaColumns::new(alloc, &arena))?;
    assert_tour(&rt, &mut VecColumns::new(alloc))?;
    assert_tour(&rt, &mut ArenaColumns::new(alloc, &arena))
}
