// Small instances. All but the last have a base and a gate, ten minutes from each other.
ghost use Rattle.std.specs.Prelude.{IfOk};
ghost use Rattle.crew_fixtures.specs.Sizes.{HasSizes};

use crate::builders::{far_builder, gate_instance};
use crate::faults::FixtureFault;
use crate::parts::{gate_task, numbered, task, team};
use crew_instance::Instance;
use crew_terms::{Task, Team};
use std::alloc::Global;

/// One team and no task.
pub fn no_tasks(alloc: Global) -> Result<Instance, FixtureFault>
    ensures { IfOk result (HasSizes 2 1 0) }
{
    gate_instance(alloc, &[team(b"T1")?], &[])
}

/// One team, and a task A of it that may begin from 07:00 to 07:30.
pub fn one_task(alloc: Global) -> Result<Instance, FixtureFault>
    ensures { IfOk result (HasSizes 2 1 1) }
{
    gate_instance(alloc, &[team(b"T1")?], &[task(b"A")?])
}

/// One team, and the tasks A and B for one team each, which both begin at 07:00: the team can do one of them.
pub fn two_at_once(alloc: Global) -> Result<Instance, FixtureFault>
    ensures { IfOk result (HasSizes 2 1 2) }
{
    let first = Task {
        latest: 420,
        ..task(b"A")?
    };
    let second = Task {
        latest: 420,
        ..task(b"B")?
    };
    gate_instance(alloc, &[team(b"T1")?], &[first, second])
}

/// A task J at 07:00 for two teams that have skill 3.
fn skilled_task() -> Result<Task, FixtureFault> {
    Ok(Task {
        latest: 420,
        teams: 2,
        skills: 1 << 3,
        ..task(b"J")?
    })
}

/// Two teams with the skill that the task J of both needs, at 07:00.
pub fn joint_task(alloc: Global) -> Result<Instance, FixtureFault>
    ensures { IfOk result (HasSizes 2 2 1) }
{
    let skills = 1 << 3;
    let first = Team {
        skills,
        ..team(b"T1")?
    };
    let second = Team {
        skills,
        ..team(b"T2")?
    };
    gate_instance(alloc, &[first, second], &[skilled_task()?])
}

/// Two teams, of which the second lacks the skill that the task J of both needs.
pub fn lacking_skill(alloc: Global) -> Result<Instance, FixtureFault>
    ensures { IfOk result (HasSizes 2 2 1) }
{
    let first = Team {
        skills: 1 << 3,
        ..team(b"T1")?
    };
    gate_instance(alloc, &[first, team(b"T2")?], &[skilled_task()?])
}

/// A task J of two teams that may begin from 07:00 on, by this minute. The shift of the first team lets it begin J at
/// minute 420 alone, that of the second at minute 450 alone.
pub fn hardly_overlapping(alloc: Global, latest: u32) -> Result<Instance, FixtureFault>
    ensures { IfOk result (HasSizes 2 2 1) }
{
    let first = Team {
        from: 410,
        until: 460,
        ..team(b"T1")?
    };
    let second = Team {
        from: 440,
        until: 490,
        ..team(b"T2")?
    };
    let joint = Task {
        latest,
        teams: 2,
        ..task(b"J")?
    };
    gate_instance(alloc, &[first, second], &[joint])
}

/// Twelve tasks of half an hour, four each at 07:00, 08:00 and 09:00 alone, for three teams.
pub fn crowded_hours(alloc: Global) -> Result<Instance, FixtureFault> {
    let teams = [team(b"T1")?, team(b"T2")?, team(b"T3")?];
    let mut tasks: Vec<Task> = Vec::with_capacity(alloc, 12)?;
    for n in 0..12 {
        let at = 420 + n / 4 * 60;
        tasks.push(Task {
            name: numbered(n)?,
            earliest: at,
            latest: at,
            ..task(b"A")?
        })?;
    }
    gate_instance(alloc, &teams, &tasks)
}

/// One team, and the tasks A for two teams and B for one, which may begin from 07:00 to 09:00: a route may go from A to B
/// and back to A, which serves both of the teams that A needs.
pub fn there_and_back(alloc: Global) -> Result<Instance, FixtureFault>
    ensures { IfOk result (HasSizes 2 1 2) }
{
    let first = Task {
        latest: 540,
        teams: 2,
        ..task(b"A")?
    };
    let second = Task {
        latest: 540,
        ..task(b"B")?
    };
    gate_instance(alloc, &[team(b"T1")?], &[first, second])
}

/// One team, and the tasks A, X and C at the gates G1, G2 and G3 of `far_builder`, one after the other: the team can do
/// all three, but not C right after A.
pub fn far_gates(alloc: Global) -> Result<Instance, FixtureFault>
    ensures { IfOk result (HasSizes 4 1 3) }
{
    let tasks = [
        gate_task(b"A", 1, 420)?,
        gate_task(b"X", 2, 440)?,
        gate_task(b"C", 3, 460)?,
    ];
    Ok(far_builder(alloc, &[team(b"T1")?], &tasks)?.finish()?)
}
