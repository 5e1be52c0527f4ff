// Walks over trees of a small day.
ghost use Rattle.std.specs.Prelude.{◌≡◌, ◌≤◌, false, IfOk, OnOk};
ghost use Rattle.crew_fixtures.specs.Sizes.{HasSizes};
ghost use Rattle.tree_walk.specs.Way.{IsSomewhere};

use crate::asserts::{same, same_at};
use crew_fixtures::{FixtureFault, gate_instance, task, team};
use crew_instance::Instance;
use crew_terms::{Choice, Pair, Task, TreeCounts};
use node_limits::Limits;
use std::alloc::Global;
use std::test::Fail;
use tree_walk::{Walk, is_cut};

/// Two teams, and two tasks whose windows are as wide as they may be, or nearly so.
fn small_day(alloc: Global) -> Result<Instance, FixtureFault>
    ensures { IfOk result (HasSizes 2 2 2) }
{
    let first = Task {
        latest: 1140,
        ..task(b"A")?
    };
    let second = Task {
        earliest: 100,
        latest: 800,
        ..task(b"B")?
    };
    gate_instance(alloc, &[team(b"T1")?, team(b"T2")?], &[first, second])
}

/// The window of the first task, and the pair of the first team with the second task.
fn told(limits: &Limits<'_>) -> Option<((u32, u32), Pair)> {
    if limits.instance().teams() != 2 || limits.instance().tasks() != 2 {
        return None;
    }
    Some((limits.window(0), limits.pair(0, 1)))
}

/// Splits the window of the task, where it can be split at the minute, and goes into the lower child.
fn split_window(walk: &mut Walk, limits: &mut Limits<'_>, task: u32, cut: u32) -> Result<(), Fail>
    requires { IsSomewhere limits.old walk.old }
    ensures { OnOk result (IsSomewhere limits.new walk.new) }
{
    limits.reserve(1)?;
    if task as usize >= limits.instance().tasks() || !is_cut(limits, task, cut) {
        return Err("cut")?;
    }
    if walk.is_full() || walk.seen().splits > 100000 {
        return Err("splits")?;
    }
    walk.enter(limits, Choice::Window { task, cut });
    Ok(())
}

/// Splits by the first team and the second task, where nothing is said yet of them, and goes into the child without.
fn split_pair(walk: &mut Walk, limits: &mut Limits<'_>) -> Result<(), Fail>
    requires { IsSomewhere limits.old walk.old }
    ensures { OnOk result (IsSomewhere limits.new walk.new) }
{
    limits.reserve(1)?;
    if limits.instance().teams() != 2 || limits.instance().tasks() != 2 {
        return Err("day")?;
    }
    if !matches!(limits.pair(0, 1), Pair::Free) || walk.seen().splits > 100000 {
        return Err("pair")?;
    }
    if walk.is_full() {
        return Err("splits")?;
    }
    walk.enter(limits, Choice::Pair { team: 0, task: 1 });
    Ok(())
}

/// Leaves a leaf: whether the tree is whole.
fn leave(walk: &mut Walk, limits: &mut Limits<'_>, is_closed: bool) -> Result<bool, Fail>
    requires { IsSomewhere limits.old walk.old }
    ensures { IfOk result (λ is_whole. is_whole ≡ false → IsSomewhere limits.new walk.new) }
{
    if walk.seen().closed > 100000 || walk.seen().left_open > 100000 {
        return Err("leaves")?;
    }
    Ok(walk.leave(limits, is_closed))
}

#[test]
fn walks_a_small_tree(rt: HostRuntime) -> Result<(), Fail> {
    let day = small_day(rt.alloc())?;
    let mut limits = Limits::root(rt.alloc(), &day)?;
    let mut walk = Walk::open(rt.alloc(), 2)?;
    split_window(&mut walk, &mut limits, 0, 440)?;
    same(&rt, &told(&limits), &Some(((420, 440), Pair::Free)));
    split_pair(&mut walk, &mut limits)?;
    same(&rt, &told(&limits), &Some(((420, 440), Pair::Forbidden)));
    same(&rt, &walk.level(), &2);
    if leave(&mut walk, &mut limits, false)? {
        return Err("whole")?;
    }
    same(&rt, &told(&limits), &Some(((420, 440), Pair::Required)));
    if leave(&mut walk, &mut limits, true)? {
        return Err("whole")?;
    }
    same(&rt, &told(&limits), &Some(((441, 1140), Pair::Free)));
    same(&rt, &walk.level(), &1);
    same(&rt, &leave(&mut walk, &mut limits, true)?, &true);
    same(&rt, &told(&limits), &Some(((420, 1140), Pair::Free)));
    same(
        &rt,
        &walk.seen(),
        &TreeCounts {
            splits: 2,
            closed: 2,
            left_open: 1,
            depth: 2,
        },
    );
    Ok(())
}

#[test]
fn tells_where_a_window_can_be_split(rt: HostRuntime) -> Result<(), Fail> {
    let day = small_day(rt.alloc())?;
    let limits = Limits::root(rt.alloc(), &day)?;
    for (cut, wanted) in [(419, false), (420, true), (1139, true), (1140, false)] {
        same_at(&rt, &is_cut(&limits, 0, cut), &wanted, &cut);
    }
    Ok(())
}

/// Splits a task's window again and again, at one minute less each time, and goes into the lower child.
fn go_down(
    walk: &mut Walk,
    limits: &mut Limits<'_>,
    task: u32,
    from: u32,
    levels: u32,
) -> Result<(), Fail>
    requires order { levels ≤ from }
    requires somewhere { IsSomewhere limits.old walk.old }
    ensures { OnOk result (IsSomewhere limits.new walk.new) }
{
    for n in 0..levels {
        split_window(walk, limits, task, from - n)?;
    }
    Ok(())
}

/// Leaves open leaves up to the end of the tree: how many there are, below a number.
fn leave_all(walk: &mut Walk, limits: &mut Limits<'_>, below: u32) -> Result<u32, Fail>
    requires { IsSomewhere limits.old walk.old }
{
    for n in 0..below {
        if leave(walk, limits, false)? {
            return Ok(n + 1);
        }
    }
    Err("end")?
}

#[test]
fn walks_a_deep_tree(rt: HostRuntime) -> Result<(), Fail> {
    let day = small_day(rt.alloc())?;
    let mut limits = Limits::root(rt.alloc(), &day)?;
    let mut walk = Walk::open(rt.alloc(), 1000)?;
    go_down(&mut walk, &mut limits, 0, 1139, 720)?;
    go_down(&mut walk, &mut limits, 1, 799, 280)?;
    same(&rt, &walk.level(), &1000);
    same(&rt, &leave_all(&mut walk, &mut limits, 5000)?, &1001);
    same(&rt, &told(&limits), &Some(((420, 1140), Pair::Free)));
    same(
        &rt,
        &walk.seen(),
        &TreeCounts {
            splits: 1000,
            closed: 0,
            left_open: 1001,
            depth: 1000,
        },
    );
    Ok(())
}
