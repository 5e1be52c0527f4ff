// The head of a dossier: its first line, its size, its places, travel times, teams, tasks and frozen jobs, each judged
// by the row of the table of lines that is due.
#![tactic(auto)]

ghost use Rattle.head_check.specs.Head.{Holds, IsLineDue, IsHeadStep};

mod due;
mod faults;
mod frozen;
mod head;
pub mod numbers;

pub use due::{Base, Head, HeadDue};
use field_table::LineWords;
use frozen::{frozen_line, keep_line};
use head::{form_line, place_line, size_line, task_line, team_line, travel_line};
use line_in::Refusal;
use std::alloc::Global;

/// Judges the line of the head that is due: what is due next, or why there is nothing more.
#[inline(always)]
pub fn judge_head(alloc: Global, due: HeadDue, words: LineWords<'_>) -> Result<HeadDue, Refusal>
    requires due { IsLineDue due }
    requires holds { Holds due }
    ensures { IsHeadStep due words.entry result }
{
    match due {
        HeadDue::Form => form_line(words),
        HeadDue::Size { form } => size_line(alloc, form, words),
        HeadDue::Place { head, more } => place_line(alloc, head, more, words),
        HeadDue::Travel { head, more } => travel_line(alloc, head, more, words),
        HeadDue::Team { head, more } => team_line(alloc, head, more, words),
        HeadDue::Task { head, more } => task_line(alloc, head, more, words),
        HeadDue::Frozen { head } => frozen_line(alloc, head, words),
        HeadDue::Keep { head, more, from } => keep_line(alloc, head, more, from, words),
        HeadDue::Whole { .. } => unreachable!(),
    }
}
