// Pairs by which a node may be split.
ghost use Rattle.std.specs.Prelude.{◌≡◌, ◌<◌, All, IfSome};
ghost use Rattle.branch_choice.specs.Uses.{IsPermittedUse};
ghost use Rattle.crew_terms.specs.Limits.{tasks_in, teams_in};
ghost use Rattle.split_uses.specs.Permitted.{IsPermittedScored, IsPermittedSpan};

use crate::picks::{Pick, Scored, better, gaining};
use crate::scale::{ONE, Scale, times};
use crate::spans::Span;
use branch_choice::Use;
use crew_terms::Pair;
use node_limits::Limits;

/// The teams of a node: for each the first that is alike.
#[derive(Clone, Copy)]
pub(crate) struct Classes<'a> {
    pub(crate) firsts: &'a [u32],
}

impl Classes<'_> {
    // The first team that is like this one.
    fn of(&self, team: u32) -> u32 {
        match self.firsts.get(team as usize) {
            Some(first) => *first,
            None => team,
        }
    }

    // What the teams that are like this one make of a whole.
    fn share(&self, scale: Scale, spans: &[Span], team: u32) -> i128 {
        let first = self.of(team);
        let mut sum = 0i128;
        for span in spans {
            if self.of(span.one.team) == first {
                sum = sum.saturating_add(scale.part(span));
            }
        }
        sum.min(ONE)
    }
}

// How many pairs of a task are open, and whether one is forbidden.
#[derive(Clone, Copy)]
struct Pairs {
    open: i128,
    is_narrowed: bool,
}

// What the node says of the pairs of a task.
fn pairs_of(limits: &Limits<'_>, task: u32) -> Pairs
    requires { task < tasks_in limits.now.limits }
{
    let mut open = 0i128;
    let mut is_narrowed = false;
    for k in 0..limits.instance().teams() as u32 {
        match limits.pair(k, task) {
            Pair::Free => {
                if limits.minutes(k, task).is_some() {
                    open = open.saturating_add(1);
                }
            }
            Pair::Forbidden => is_narrowed = true,
            Pair::Required => {}
        }
    }
    Pairs { open, is_narrowed }
}

// How far the task is from being done or left by the spans, a hundredth at least.
fn part_of(limits: &Limits<'_>, scale: Scale, spans: &[Span], task: u32) -> i128
    requires { task < tasks_in limits.now.limits }
{
    let teams = i128::from(limits.instance().task(task).teams);
    let done = times(scale.sum(spans), 1, teams).min(ONE);
    done.min(ONE.saturating_sub(done)).max(ONE / 100)
}

// What a whole share of a pair of the task decides: by how far the task is from being done or left, and by its value; more where
// few pairs are open, and where one is forbidden.
fn weight_of(limits: &Limits<'_>, scale: Scale, spans: &[Span], task: u32, value: i128) -> i128
    requires { task < tasks_in limits.now.limits }
{
    let Pairs { open, is_narrowed } = pairs_of(limits, task);
    let part = part_of(limits, scale, spans, task);
    let weight = times(part.saturating_mul(16), value, ONE) / open.max(1);
    if is_narrowed {
        weight.saturating_mul(3)
    } else {
        weight
    }
}

// Whether the pair of the use is free.
fn is_free(limits: &Limits<'_>, one: &Use) -> bool
    requires { IsPermittedUse limits.now.limits one.now }
{
    matches!(limits.pair(one.team, one.task), Pair::Free)
}

// The same visit by the first team that is alike, where it may make it.
fn by_first(limits: &Limits<'_>, classes: Classes<'_>, one: &Use) -> Use
    requires { IsPermittedUse limits.now.limits one.now }
    ensures { IsPermittedUse limits.now.limits result }
{
    let team = classes.of(one.team);
    let is_known = (team as usize) < limits.instance().teams();
    if is_known && limits.may_visit(team, one.task, one.start) {
        return Use { team, ..*one };
    }
    *one
}

/// The pair of the task that decides the most, where no team is required at it.
pub(crate) fn best_pair(
    limits: &Limits<'_>,
    scale: Scale,
    classes: Classes<'_>,
    spans: &[Span],
    task: u32,
    value: i128,
) -> Option<Scored>
    requires task { task < tasks_in limits.now.limits }
    requires spans { All (IsPermittedSpan limits.now.limits) spans.now }
    ensures { IfSome result (IsPermittedScored limits.now.limits) }
{
    if limits.required(task) > 0 {
        return None;
    }
    let weight = weight_of(limits, scale, spans, task, value);
    let mut best = None;
    for span in spans {
        if is_free(limits, &span.one) {
            let share = classes.share(scale, spans, span.one.team);
            let pick = Pick::Pair(by_first(limits, classes, &span.one));
            best = better(best, gaining(pick, times(share, weight, ONE)));
        }
    }
    best
}

/// The free pair that is done nearest to a half, of a task of this value.
pub(crate) fn nearest_half(
    limits: &Limits<'_>,
    scale: Scale,
    classes: Classes<'_>,
    spans: &[Span],
    value: i128,
) -> Option<Scored>
    requires { All (IsPermittedSpan limits.now.limits) spans.now }
    ensures { IfSome result (IsPermittedScored limits.now.limits) }
{
    let mut best = None;
    for span in spans {
        if is_free(limits, &span.one) {
            let share = classes.share(scale, spans, span.one.team);
            let half = share.min(ONE.saturating_sub(share));
            let pick = Pick::Pair(by_first(limits, classes, &span.one));
            best = better(best, gaining(pick, times(half, value, 2 * ONE)));
        }
    }
    best
}
