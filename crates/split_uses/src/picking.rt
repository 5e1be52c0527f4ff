// The uses that decide the most.
ghost use Rattle.std.specs.Prelude.{◌≡◌, ◌<◌, All, IfOk, IfSome, OnOk};
ghost use Rattle.branch_choice.specs.Uses.{IsPermittedUse};
ghost use Rattle.crew_terms.specs.Limits.{Limits as NodeLimits};
ghost use Rattle.potentials.specs.Prices.{ArePricesOf};
ghost use Rattle.split_uses.specs.Permitted.{IsPermittedScored, IsPermittedSpan};

use crate::favours::{Favours, favoured};
use crate::pairs::{Classes, best_pair, nearest_half};
use crate::picks::{Scored, better, gain_of};
use crate::scale::{ONE, Scale};
use crate::spans::Span;
use crate::values::value_of;
use crate::windows::best_window;
use branch_choice::Use;
use node_limits::Limits;
use potentials::Prices;
use price_ascent::find_firsts;
use std::alloc::{AllocError, Global};

// What decides less decides hardly anything.
const LITTLE: i128 = ONE / 100;

// Adds the span if it is of the task.
fn add_own(own: &mut Vec<Span>, span: &Span, task: u32) -> Result<(), AllocError>
    ensures { (n : NodeLimits) → IsPermittedSpan n span.now
        → All (IsPermittedSpan n) own.old.items
        → OnOk result (All (IsPermittedSpan n) own.new.items) }
{
    if span.one.task != task {
        return Ok(());
    }
    own.push(*span)?;
    Ok(())
}

// The spans of the task.
fn spans_of(alloc: Global, spans: &[Span], task: u32) -> Result<Vec<Span>, AllocError>
    ensures { (n : NodeLimits) → All (IsPermittedSpan n) spans.now
        → IfOk result (λ own. All (IsPermittedSpan n) own.items) }
{
    let mut own = Vec::new(alloc);
    for span in spans {
        add_own(&mut own, span, task)?;
    }
    Ok(own)
}

// The best, and where it decides hardly anything the better of it and the other.
fn or_rather(best: Option<Scored>, other: Option<Scored>) -> Option<Scored>
    ensures { (n : NodeLimits) → IfSome best (IsPermittedScored n)
        → IfSome other (IsPermittedScored n) → IfSome result (IsPermittedScored n) }
{
    if gain_of(&best) < LITTLE {
        better(best, other)
    } else {
        best
    }
}

/// Of spans of which `whole` parts make one the uses by which a node is best split, to be handed to `choose`: one use of a
/// pair, two uses of one task between which its window is cut, or none. A task counts by its price: one that is worth nothing is
/// not split while another is worth something.
///
/// A window is cut where the most of the task's visits can be made only before the cut, or only after it, by routes that stay
/// otherwise as they are; for a task of one team that counts a fifth. A pair counts by what all teams like it do of the task and by
/// how far that is from being done or left, where no team is required at the task; more where few pairs of it are open, and where
/// one is forbidden. Where nothing counts for a hundredth, the pair that is done nearest to a half is looked at too. The uses
/// depend on all this by measurement alone.
pub fn split_uses(
    alloc: Global,
    limits: &Limits<'_>,
    prices: &Prices,
    spans: &[Span],
    whole: i128,
) -> Result<Vec<Use>, AllocError>
    requires prices { ArePricesOf limits.now.limits prices.now }
    requires spans { All (IsPermittedSpan limits.now.limits) spans.now }
    ensures { IfOk result (λ picked. All (IsPermittedUse limits.now.limits) picked.items) }
{
    let favours = Favours::none(alloc, 0)?;
    favoured_uses(alloc, limits, prices, spans, whole, &favours)
}

/// The same, where splits of some tasks count more.
pub fn favoured_uses(
    alloc: Global,
    limits: &Limits<'_>,
    prices: &Prices,
    spans: &[Span],
    whole: i128,
    favours: &Favours,
) -> Result<Vec<Use>, AllocError>
    requires prices { ArePricesOf limits.now.limits prices.now }
    requires spans { All (IsPermittedSpan limits.now.limits) spans.now }
    ensures { IfOk result (λ picked. All (IsPermittedUse limits.now.limits) picked.items) }
{
    let scale = Scale::of(whole);
    let firsts = find_firsts(alloc, limits)?;
    let classes = Classes { firsts: &firsts };
    let mut best = None;
    let mut other = None;
    for task in 0..limits.instance().tasks() as u32 {
        let own = spans_of(alloc, spans, task)?;
        let value = value_of(limits, prices, task);
        let window = best_window(limits, scale, &own, task, value);
        best = better(best, favoured(window, favours.of_window(task)));
        let pair = best_pair(limits, scale, classes, &own, task, value);
        best = better(best, favoured(pair, favours.of_pair(task)));
        other = better(other, nearest_half(limits, scale, classes, &own, value));
    }
    match or_rather(best, other) {
        Some(scored) => scored.pick.uses(alloc),
        None => Ok(Vec::new(alloc)),
    }
}
