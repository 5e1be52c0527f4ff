// Where a node is split.
ghost use Rattle.std.specs.Prelude.{All, IfOk, IsTrue};
ghost use Rattle.branch_choice.specs.Uses.{IsPermittedUse};
ghost use Rattle.crew_fixtures.specs.Sizes.{HasSizes};

use branch_choice::{Use, choose};
use crew_fixtures::{
    FixtureFault, gate_instance, hardly_overlapping, lacking_skill, task, team, two_at_once,
};
use crew_instance::Instance;
use crew_terms::{Choice, Pair, Task, Team};
use node_limits::Limits;
use std::alloc::Global;
use std::process::Abort;
use std::test::Fail;

/// A use, with one part.
fn used(team: u32, task: u32, start: u32) -> Use {
    Use {
        team,
        task,
        start,
        num: 1,
    }
}

/// Whether the team of each use may begin the task at the minute.
pub fn are_permitted(limits: &Limits<'_>, uses: &[Use]) -> bool
    ensures { IsTrue result → All (IsPermittedUse limits.now.limits) uses.now }
{
    let instance = limits.instance();
    for u in uses {
        let known = (u.team as usize) < instance.teams() && (u.task as usize) < instance.tasks();
        if !known || !limits.may_visit(u.team, u.task, u.start) {
            return false;
        }
    }
    true
}

/// Where the root is split.
fn choice_at_root(
    rt: &impl Abort,
    alloc: Global,
    day: &Instance,
    uses: &[Use],
) -> Result<Option<Choice>, Fail> {
    let root = Limits::root(alloc, day)?;
    assert!(rt; are_permitted(&root, uses));
    Ok(choose(&root, uses))
}

#[test]
fn cuts_between_two_teams(rt: HostRuntime) -> Result<(), Fail> {
    let day = hardly_overlapping(rt.alloc(), 480)?;
    let uses = [used(0, 0, 420), used(1, 0, 450)];
    let told = choice_at_root(&rt, rt.alloc(), &day, &uses)?;
    assert!(rt; told == Some(Choice::Window { task: 0, cut: 435 }));
    Ok(())
}

#[test]
fn takes_a_pair_of_one_minute(rt: HostRuntime) -> Result<(), Fail> {
    let day = two_at_once(rt.alloc())?;
    let first = Some(Choice::Pair { team: 0, task: 0 });
    assert!(rt; choice_at_root(&rt, rt.alloc(), &day, &[used(0, 0, 420)])? == first);
    assert!(rt; choice_at_root(&rt, rt.alloc(), &day, &[])? == first);
    Ok(())
}

/// Two teams, and two tasks that either of them may begin from 07:00 to 07:30.
pub fn tied(alloc: Global) -> Result<Instance, FixtureFault>
    ensures { IfOk result (HasSizes 2 2 2) }
{
    gate_instance(
        alloc,
        &[team(b"T1")?, team(b"T2")?],
        &[task(b"A")?, task(b"B")?],
    )
}

#[test]
fn takes_the_lowest_task_and_then_the_lowest_team(rt: HostRuntime) -> Result<(), Fail> {
    let day = tied(rt.alloc())?;
    let later = [used(0, 1, 420), used(0, 1, 430)];
    let spread = [used(1, 0, 425), used(1, 0, 421), used(0, 0, 440)];
    let rows: [(&[Use], Choice); 5] = [
        (
            &[later[0], spread[0], later[1], spread[1], spread[2]],
            Choice::Window { task: 0, cut: 430 },
        ),
        (
            &[spread[0], later[0], later[1]],
            Choice::Window { task: 1, cut: 425 },
        ),
        (
            &[used(0, 1, 420), used(1, 1, 420), used(1, 0, 421)],
            Choice::Pair { team: 1, task: 0 },
        ),
        (
            &[used(1, 1, 420), used(0, 1, 420)],
            Choice::Pair { team: 0, task: 1 },
        ),
        (&[], Choice::Window { task: 0, cut: 435 }),
    ];
    for (uses, wanted) in rows {
        assert!(rt; choice_at_root(&rt, rt.alloc(), &day, uses)? == Some(wanted));
    }
    Ok(())
}

/// Three teams, of which the first lacks the skill that the tasks A and B at 07:00 need.
fn skilled(alloc: Global) -> Result<Instance, FixtureFault> {
    let first = Task {
        latest: 420,
        skills: 1,
        ..task(b"A")?
    };
    let second = Task {
        latest: 420,
        skills: 1,
        ..task(b"B")?
    };
    let able = Team {
        skills: 1,
        ..team(b"T2")?
    };
    let other = Team {
        skills: 1,
        ..team(b"T3")?
    };
    gate_instance(alloc, &[team(b"T1")?, able, other], &[first, second])
}

#[test]
fn passes_over_pairs_without_a_minute(rt: HostRuntime) -> Result<(), Fail> {
    let day = skilled(rt.alloc())?;
    let told = choice_at_root(&rt, rt.alloc(), &day, &[])?;
    assert!(rt; told == Some(Choice::Pair { team: 1, task: 0 }));
    Ok(())
}

#[test]
fn leaves_a_decided_node_whole(rt: HostRuntime) -> Result<(), Fail> {
    let day = lacking_skill(rt.alloc())?;
    let mut limits = Limits::root(rt.alloc(), &day)?;
    limits.reserve(1)?;
    assert!(rt; limits.pair(0, 0) == Pair::Free);
    assert!(rt; choose(&limits, &[]) == Some(Choice::Pair { team: 0, task: 0 }));
    limits.set_pair(0, 0, Pair::Forbidden);
    assert!(rt; choose(&limits, &[]).is_none());
    Ok(())
}
