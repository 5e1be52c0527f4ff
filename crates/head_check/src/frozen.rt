// The lines of the frozen jobs: `frozen` and `keep`.
ghost use Rattle.std.specs.Prelude.{◌<◌, ℕ, Contains};
ghost use Rattle.dossier_terms.specs.HeadTable.{after_keep};
ghost use Rattle.head_check.specs.Head.{Holds, IsFull, IsHeadStep, HeadTells, after_job, opening_of, read_of};

use crate::due::{Base, Head, HeadDue};
use crate::faults::refusal_of;
use crate::numbers::team_list;
use cert_format::{JobLine, fault_is_refused, read_frozen, read_keep};
use crew_laws::{empty_plan_is_feasible, one_feasibility};
use dossier_terms::Reason;
use field_table::LineWords;
use line_in::Refusal;
use std::alloc::Global;

/// What is due where so many frozen jobs are to come, of tasks from `from` on. The last one is judged with all of them.
fn due_keeps(alloc: Global, head: Box<Head>, more: u32, from: u32) -> Result<HeadDue, Refusal>
    requires { IsFull head.value }
    ensures { let i = read_of head.value in
        HeadTells (after_keep (opening_of head.value) more from i) result }
{
    one_feasibility();
    if more > 0 {
        let more = more - 1;
        return Ok(HeadDue::Keep { head, more, from });
    }
    let Head {
        form,
        size,
        builder,
    } = Box::into_inner(head);
    let instance = builder.into_instance().map_err(refusal_of)?;
    // The instance is within its limits, so the teams can do its frozen jobs.
    let _tasks = instance.tasks();
    let base = Base {
        form,
        instance,
        nodes: size.nodes,
    };
    let base = Box::new(alloc, base)?;
    Ok(HeadDue::Whole { base })
}

/// The line `frozen`.
pub fn frozen_line(alloc: Global, head: Box<Head>, words: LineWords<'_>) -> Result<HeadDue, Refusal>
    requires { Holds (HeadDue.Frozen head) }
    ensures { IsHeadStep (HeadDue.Frozen head) words.entry result }
{
    fault_is_refused();
    empty_plan_is_feasible();
    let count = read_frozen(words, head.size.tasks)?;
    due_keeps(alloc, head, count, 0)
}

/// Freezes a job that a line spells.
fn add_keep(
    alloc: Global,
    mut head: Box<Head>,
    more: u32,
    task: u32,
    start: u32,
    teams: &[u32],
) -> Result<HeadDue, Refusal>
    requires full { IsFull head.value }
    requires task { task < head.value.size.tasks }
    requires teams { (k : ℕ) → Contains teams.now k → k < head.value.size.teams }
    ensures { HeadTells (after_job head.value more task start teams.now) result }
{
    let held = &mut *head;
    held.builder.freeze(task, start, teams).map_err(refusal_of)?;
    due_keeps(alloc, head, more, task + 1)
}

/// A line `keep`.
pub fn keep_line(
    alloc: Global,
    head: Box<Head>,
    more: u32,
    from: u32,
    words: LineWords<'_>,
) -> Result<HeadDue, Refusal>
    requires { Holds (HeadDue.Keep head more from) }
    ensures { IsHeadStep (HeadDue.Keep head more from) words.entry result }
{
    fault_is_refused();
    let JobLine { task, start, teams } = read_keep(words, head.size.teams, head.size.tasks)?;
    if task < from {
        return Err(Refusal::No(Reason::Shape));
    }
    let list = team_list(alloc, &teams)?;
    add_keep(alloc, head, more, task, start, &list)
}
