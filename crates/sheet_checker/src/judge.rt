// One line of a sheet, judged by the row of the table that is due.
ghost use Rattle.std.specs.Prelude.{IfOk};
ghost use Rattle.head_check.specs.Head.{Holds, IsLineDue, reading_of};
ghost use Rattle.sheet_terms.specs.Reading.{Bounds, head_due};
ghost use Rattle.sheet_checker.specs.Due.{Awaits, IsAwaited, IsStep};

use crate::due::{Due, SheetDraft, Step};
use dossier_terms::{DossierForm, Reason};
use field_table::LineWords;
use head_check::{Base, HeadDue, judge_head};
use line_in::Refusal;
use node_limits::Limits;
use sheet_lines::words::is_first;
use sheet_reader::{SheetReader, SheetStep};
use std::alloc::{AllocError, Global};

/// The first line.
fn first_line(words: LineWords<'_>) -> Result<Step, Refusal>
    ensures { IsStep Due.First words.entry result }
{
    if !is_first(&words) {
        return Err(Refusal::No(Reason::Shape));
    }
    let form = DossierForm::Two;
    Ok(Step::More(Due::Head(HeadDue::Size { form })))
}

/// What is due behind the instance: the line `bound`, with all that reads the lines from it on.
fn begin_body(alloc: Global, base: Base) -> Result<Due, AllocError>
    ensures { IfOk result (λ due. Awaits due (Bounds base.instance base.nodes)) }
{
    let limits = Limits::root(alloc, &base.instance)?;
    let reader = SheetReader::open(alloc, &limits)?;
    let root = limits.rest();
    let draft = SheetDraft { base, root, reader };
    let draft = Box::new(alloc, draft)?;
    Ok(Due::Body { draft })
}

/// What is due behind a line of the instance or of its frozen jobs.
fn due_after(alloc: Global, due: HeadDue) -> Result<Due, AllocError>
    requires { Holds due }
    ensures { IfOk result (λ next. Awaits next (head_due (reading_of due))) }
{
    match due {
        HeadDue::Whole { base } => begin_body(alloc, Box::into_inner(base)),
        due => Ok(Due::Head(due)),
    }
}

/// A line of the instance or of its frozen jobs.
fn head_line(alloc: Global, due: HeadDue, words: LineWords<'_>) -> Result<Step, Refusal>
    requires due { IsLineDue due }
    requires holds { Holds due }
    ensures { IsStep (Due.Head due) words.entry result }
{
    let next = judge_head(alloc, due, words)?;
    let after = due_after(alloc, next)?;
    Ok(Step::More(after))
}

/// A line behind the instance.
fn body_line(
    alloc: Global,
    mut draft: Box<SheetDraft>,
    words: LineWords<'_>,
) -> Result<Step, Refusal>
    requires { IsAwaited (Due.Body draft) }
    ensures { IsStep (Due.Body draft) words.entry result }
{
    let held = &mut *draft;
    let limits = Limits::wake(&held.base.instance, held.root.take(alloc));
    let step = held.reader.line(alloc, &limits, words)?;
    held.root = limits.rest();
    match step {
        SheetStep::More => Ok(Step::More(Due::Body { draft })),
        SheetStep::Whole => Ok(Step::Whole {
            bound: held.reader.bound(),
        }),
    }
}

/// Judges the line that is due.
pub fn judge(alloc: Global, due: Due, words: LineWords<'_>) -> Result<Step, Refusal>
    requires { IsAwaited due }
    ensures { IsStep due words.entry result }
{
    match due {
        Due::First => first_line(words),
        Due::Head(due) => head_line(alloc, due, words),
        Due::Body { draft } => body_line(alloc, draft, words),
    }
}
