// Windows by which a node may be split.
ghost use Rattle.std.specs.Prelude.{◌≡◌, ◌<◌, All, IfSome};
ghost use Rattle.branch_choice.specs.Uses.{IsPermittedUse};
ghost use Rattle.crew_terms.specs.Limits.{Limits as NodeLimits, tasks_in};
ghost use Rattle.split_uses.specs.Permitted.{IsPermittedPick, IsPermittedScored, IsPermittedSpan};

use crate::picks::{Pick, Scored, gaining};
use crate::scale::{ONE, Scale, times};
use crate::spans::Span;
use branch_choice::Use;
use node_limits::Limits;

// So little on one side of a cut decides nothing.
const LEAST_SIDE: i128 = ONE / 50;

/// A minute after which a window is cut, and how much the cut decides.
#[derive(Clone, Copy)]
struct Cut {
    minute: u32,
    gain: i128,
}

// How much a cut after the minute decides: of the visits that can't be made after it and of those that can't be made up to it
// the lesser, and a hundredth of the greater. Nothing where one side is hardly used.
fn gain_at(scale: Scale, spans: &[Span], minute: u32) -> i128 {
    let mut before = 0i128;
    let mut behind = 0i128;
    for span in spans {
        if span.latest <= minute {
            before = before.saturating_add(scale.part(span));
        } else if span.earliest > minute {
            behind = behind.saturating_add(scale.part(span));
        }
    }
    let less = before.min(behind);
    if less < LEAST_SIDE {
        return 0;
    }
    less.saturating_add(before.max(behind) / 100).min(ONE)
}

// The better of a cut and another one after the minute.
fn better_cut(scale: Scale, spans: &[Span], best: Cut, minute: u32) -> Cut {
    let gain = gain_at(scale, spans, minute);
    if gain > best.gain {
        Cut { minute, gain }
    } else {
        best
    }
}

// The cut that decides the most: after the latest minute of a visit, or just before the earliest one.
fn best_cut(scale: Scale, spans: &[Span]) -> Cut {
    let mut best = Cut { minute: 0, gain: 0 };
    for span in spans {
        best = better_cut(scale, spans, best, span.latest);
        best = better_cut(scale, spans, best, span.earliest.saturating_sub(1));
    }
    best
}

// The middle of the minutes at which a cut parts the visits as it does after this one.
fn middle(spans: &[Span], minute: u32) -> u32 {
    let mut from = 0;
    let mut until = u32::MAX;
    for span in spans {
        for end in [span.earliest, span.latest] {
            if end <= minute {
                from = end.max(from);
            } else {
                until = until.min(end.saturating_sub(1));
            }
        }
    }
    from.midpoint(until)
}

// The visit, at this minute, if the team may make it then.
fn moved(limits: &Limits<'_>, one: Use, start: u32) -> Option<Use>
    requires { IsPermittedUse limits.now.limits one }
    ensures { IfSome result (IsPermittedUse limits.now.limits) }
{
    if limits.may_visit(one.team, one.task, start) {
        Some(Use { start, ..one })
    } else {
        None
    }
}

// The later of two uses; where they are as late, the first.
fn later(first: Option<Use>, second: Option<Use>) -> Option<Use>
    ensures { (n : NodeLimits) → IfSome first (IsPermittedUse n)
        → IfSome second (IsPermittedUse n) → IfSome result (IsPermittedUse n) }
{
    match (&first, &second) {
        (Some(one), Some(other)) if one.start >= other.start => first,
        (Some(_), None) => first,
        _ => second,
    }
}

// The earlier of two uses; where they are as early, the first.
fn earlier(first: Option<Use>, second: Option<Use>) -> Option<Use>
    ensures { (n : NodeLimits) → IfSome first (IsPermittedUse n)
        → IfSome second (IsPermittedUse n) → IfSome result (IsPermittedUse n) }
{
    match (&first, &second) {
        (Some(one), Some(other)) if one.start <= other.start => first,
        (Some(_), None) => first,
        _ => second,
    }
}

// The visit as late as its team may make it, up to the minute.
fn latest_up_to(limits: &Limits<'_>, one: Use, minute: u32) -> Option<Use>
    requires { IsPermittedUse limits.now.limits one }
    ensures { IfSome result (IsPermittedUse limits.now.limits) }
{
    let (_, last) = limits.minutes(one.team, one.task)?;
    moved(limits, one, last.min(minute))
}

// The visit as early as its team may make it, after the minute.
fn earliest_after(limits: &Limits<'_>, one: Use, minute: u32) -> Option<Use>
    requires { IsPermittedUse limits.now.limits one }
    ensures { IfSome result (IsPermittedUse limits.now.limits) }
{
    let (first, _) = limits.minutes(one.team, one.task)?;
    moved(limits, one, first.max(minute.saturating_add(1)))
}

// The window, cut after the minute: between the last visit that a team of the spans may make up to it, and the first after it.
fn cut_after(limits: &Limits<'_>, spans: &[Span], minute: u32) -> Option<Pick>
    requires { All (IsPermittedSpan limits.now.limits) spans.now }
    ensures { IfSome result (IsPermittedPick limits.now.limits) }
{
    let mut early = None;
    let mut late = None;
    for span in spans {
        early = later(early, latest_up_to(limits, span.one, minute));
        late = earlier(late, earliest_after(limits, span.one, minute));
    }
    Some(Pick::Window(early?, late?))
}

/// The window of a task whose visits these are, cut where that decides the most, of a task of this value.
pub(crate) fn best_window(
    limits: &Limits<'_>,
    scale: Scale,
    spans: &[Span],
    task: u32,
    value: i128,
) -> Option<Scored>
    requires task { task < tasks_in limits.now.limits }
    requires spans { All (IsPermittedSpan limits.now.limits) spans.now }
    ensures { IfSome result (IsPermittedScored limits.now.limits) }
{
    let cut = best_cut(scale, spans);
    if cut.gain <= 0 {
        return None;
    }
    let pick = cut_after(limits, spans, middle(spans, cut.minute))?;
    let gain = times(cut.gain.saturating_mul(2), value.max(ONE / 1000), ONE);
    if limits.instance().task(task).teams > 1 {
        gaining(pick, gain)
    } else {
        gaining(pick, gain / 5)
    }
}
