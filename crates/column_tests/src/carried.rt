// Columns that are carried from one round to the next.
ghost use Rattle.std.specs.Prelude.{◌≡◌, ◌<◌, [], All, OnOk, length};
ghost use Rattle.route_terms.specs.Kept.{AreKeptRoutes};
ghost use Rattle.route_terms.specs.Named.{IsOfInstance};

use crate::asserts::same;
use bumpalo::Bump;
use column_arena::{ArenaColumns, Carry, Columns, VecColumns};
use crew_fixtures::{gate_instance, task, team, two_at_once, visit};
use crew_instance::{Instance, Task};
use crew_terms::Visit;
use node_limits::Limits;
use std::alloc::Global;
use std::process::Abort;
use std::test::Fail;

/// Adds the visit of the first team to the task at 07:00.
fn add<C: Columns>(instance: &Instance, columns: &mut C, task: u32) -> Result<(), Fail>
    requires team { 0 < length instance.now.teams }
    requires task { task < length instance.now.tasks }
    requires of_instance { All (IsOfInstance instance.now) (C.columns columns.old) }
    ensures { OnOk result (All (IsOfInstance instance.now) (C.columns columns.new)) }
{
    let _ = instance.tasks();
    columns.add(0, &[Visit { task, start: 420 }])?;
    Ok(())
}

/// What is taken in one round and placed in the next are the kept routes.
fn carry_over<C: Columns, D: Columns>(
    alloc: Global,
    before: &Instance,
    columns: &C,
    after: &Instance,
    next: &mut D,
) -> Result<usize, Fail>
    requires of_instance { All (IsOfInstance before.now) (C.columns columns.now) }
    requires none { D.columns next.old ≡ [] }
    ensures { OnOk result
        (AreKeptRoutes before.now (C.columns columns.now) after.now (D.columns next.new)) }
{
    let carry = Carry::take(alloc, before, columns)?;
    let root = Limits::root(alloc, after)?;
    Ok(carry.place(&root, next)?)
}

/// One of two tasks is cancelled: the other keeps its column, by its new number.
fn assert_kept<C: Columns, D: Columns>(
    rt: &impl Abort,
    alloc: Global,
    columns: &mut C,
    next: &mut D,
) -> Result<(), Fail>
    requires columns { C.columns columns.old ≡ [] }
    requires next { D.columns next.old ≡ [] }
{
    let before = two_at_once(alloc)?;
    let moved = Task {
        latest: 480,
        ..task(b"B")?
    };
    let after = gate_instance(alloc, &[team(b"T1")?], &[moved])?;
    add(&before, columns, 0)?;
    add(&before, columns, 1)?;
    same(rt, &carry_over(alloc, &before, columns, &after, next)?, &1);
    assert!(rt; next.len() == 1);
    same(rt, &next.team(0), &0);
    same(rt, &next.visits(0), &[visit(0, 420)].as_slice());
    Ok(())
}

#[test]
fn what_stays_legal_is_carried(rt: HostRuntime) -> Result<(), Fail> {
    let alloc = rt.alloc();
    let arena = Bump::new(alloc);
    let fresh = Bump::new(alloc);
    assert_kept(
        &rt,
        alloc,
        &mut VecColumns::new(alloc),
        &mut VecColumns::new(alloc),
    )?;
    assert_kept(
        &rt,
        alloc,
        &mut ArenaColumns::new(alloc, &arena),
        &mut ArenaColumns::new(alloc, &fresh),
    )
}
