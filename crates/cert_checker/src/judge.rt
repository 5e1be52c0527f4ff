// One line of a dossier, judged by the row of the table that is due. The calls through which each line goes are inlined,
// so that what is due is moved once, and not from call to call.
ghost use Rattle.std.specs.Prelude.{◌≢◌, Err};
ghost use Rattle.line_in.specs.declared.refusals.Refusal.TheVariants.{OutOfMemory};
ghost use Rattle.head_check.specs.Head.{Holds as HoldsHead, IsLineDue, reading_of};
ghost use Rattle.cert_checker.specs.Due.{Awaits, IsAwaited, IsOfTree, IsStepWithRoom};

use crate::cause::{share_line, spare_line, why_line};
use crate::due::{Due, Step};
use crate::leaf::{end_line, number_line};
use crate::node::node_line;
use crate::plan::{job_line, plan_line};
use crate::pool::{pool_line, route_line};
use crate::rooms::TreeRoom;
use crate::tree::tree_line;
use crew_instance::TurnRoom;
use field_table::LineWords;
use head_check::{HeadDue, judge_head};
use line_in::Refusal;
use std::alloc::Global;

/// What is due behind a line of the head.
#[inline(always)]
fn due_after(due: HeadDue) -> Due
    requires { HoldsHead due }
    ensures { Awaits result (reading_of due) }
{
    match due {
        HeadDue::Whole { base } => Due::Pool { base },
        due => Due::Head(due),
    }
}

/// A line of the head.
#[inline(always)]
fn head_line(alloc: Global, due: HeadDue, words: LineWords<'_>) -> Result<Step, Refusal>
    requires due { IsLineDue due }
    requires holds { HoldsHead due }
    ensures { IsStepWithRoom (Due.Head due) words.entry result }
{
    let next = judge_head(alloc, due, words)?;
    Ok(Step::More(due_after(next)))
}

/// Judges the line that is due. A dossier takes the limits and the room that are kept, where they fit.
#[inline(always)]
pub fn judge(
    alloc: Global,
    room: &mut Option<TreeRoom>,
    turns: &mut TurnRoom,
    due: Due,
    words: LineWords<'_>,
) -> Result<Step, Refusal>
    requires { IsAwaited due }
    ensures step { IsStepWithRoom due words.entry result }
    ensures room { IsOfTree due → result ≢ Err OutOfMemory }
{
    match due {
        Due::Head(due) => head_line(alloc, due, words),
        Due::Pool { base } => pool_line(alloc, room, base, words),
        Due::Route { draft, more } => route_line(alloc, draft, more, words),
        Due::Plan { draft } => Ok(plan_line(turns, draft, words)?),
        Due::Job { draft, more, from } => job_line(alloc, turns, draft, more, from, words),
        Due::Tree { draft } => tree_line(alloc, room, draft, words),
        Due::Node { tree } => Ok(node_line(alloc, tree, words)?),
        Due::Why { tree, choice } => Ok(why_line(alloc, tree, choice, words)?),
        Due::Share { tree, more, from } => Ok(share_line(alloc, tree, more, from, words)?),
        Due::Spare { tree } => Ok(spare_line(alloc, tree, words)?),
        Due::Leaf { tree, is_closed } => Ok(number_line(alloc, tree, is_closed, words)?),
        Due::End { tree, seen } => Ok(end_line(tree, seen, words)?),
    }
}
