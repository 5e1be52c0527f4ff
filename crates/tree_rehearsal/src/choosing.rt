// By which choice a node is split.
ghost use Rattle.std.specs.Prelude.{All};
ghost use Rattle.potentials.specs.Prices.{ArePricesOf};
ghost use Rattle.split_uses.specs.Permitted.{IsPermittedSpan};

use crate::numbers::WHOLE;
use crate::places::is_valid;
use crate::scenes::{Scenes, Tour};
use crate::solved::Solved;
use branch_choice::choose;
use crew_terms::Choice;
use node_limits::Limits;
use split_uses::{Favours, Span, favoured_uses};
use std::alloc::{AllocError, Global};

// By so much more counts the first split of a tree that was kept; half as much the next ones. In 1/256.
const KEPT: u32 = 256;

// So far down splits count more.
const LEVELS: usize = 8;

// Whether visits of routes with a share are divided by the choice.
fn is_used(spans: &[Span], choice: Choice) -> bool {
    let mut first = false;
    let mut second = false;
    for span in spans {
        match choice {
            Choice::Window { task, cut } => {
                first |= span.one.task == task && span.latest <= cut;
                second |= span.one.task == task && span.earliest > cut;
            }
            Choice::Pair { team, task } => {
                first = true;
                second |= span.one.task == task && span.one.team == team;
            }
        }
    }
    first && second
}

/// The choice by which the node is split: that which is wanted, where it splits the node and divides visits of routes with a
/// share, or else by the rule of shares. None where the node can't be split.
pub(crate) fn choice_in(
    alloc: Global,
    limits: &Limits<'_>,
    solved: &Solved,
    wanted: Option<Choice>,
    favours: &Favours,
) -> Result<Option<Choice>, AllocError>
    requires prices { ArePricesOf limits.now.limits solved.now.best.prices }
    requires spans { All (IsPermittedSpan limits.now.limits) solved.now.spans.items }
{
    if let Some(choice) = wanted {
        if is_valid(limits, choice) && is_used(&solved.spans, choice) {
            return Ok(Some(choice));
        }
    }
    let Solved { best, spans, .. } = solved;
    let uses = favoured_uses(alloc, limits, &best.prices, spans, WHOLE, favours)?;
    Ok(choose(limits, &uses))
}

/// Has splits like this one count more.
pub(crate) fn favour(favours: &mut Favours, choice: Choice, by: u32) {
    match choice {
        Choice::Window { task, .. } => favours.favour_window(task, by),
        Choice::Pair { task, .. } => favours.favour_pair(task, by),
    }
}

// By how much more a split counts that lies so far down.
fn kept_at(depth: usize) -> u32 {
    let mut by = KEPT;
    for _ in 0..depth.min(LEVELS) {
        by /= 2;
    }
    by
}

/// Has the splits of a tree that was kept count more. AllocError where there is no memory.
pub(crate) fn favour_tree(
    alloc: Global,
    favours: &mut Favours,
    scenes: &Scenes,
    node: usize,
) -> Result<(), AllocError> {
    let mut tour = Tour::from(alloc, node, Vec::new(alloc))?;
    for _ in 0..scenes.len() {
        let Some(at) = tour.next(scenes)? else {
            break;
        };
        if let Some(choice) = scenes.choice(at) {
            favour(favours, choice, kept_at(tour.branches().len()));
        }
    }
    Ok(())
}
