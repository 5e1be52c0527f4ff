// Visits that routes make in part, and the minutes at which these routes could make them.
ghost use Rattle.std.specs.Prelude.{◌≡◌, ◌<◌, All, IfSome, OnOk};
ghost use Rattle.crew_terms.specs.Limits.{tasks_in, teams_in};
ghost use Rattle.price_ascent.specs.Visits.{IsVisitOf};
ghost use Rattle.split_uses.specs.Permitted.{IsKnownStop, IsPermittedSpan};

use branch_choice::Use;
use crew_terms::Visit;
use node_limits::Limits;
use std::alloc::{AllocError, Global};

/// A visit that a route makes in part, and the earliest and the latest minute at which this route alone could make it in
/// the node, with the same visits before and after it.
#[derive(Clone, Copy, Debug, PartialEq, Eq)]
pub struct Span {
    pub one: Use,
    pub earliest: u32,
    pub latest: u32,
}

/// A task, and a minute at which a route could begin it.
#[derive(Clone, Copy)]
pub(crate) struct Stop {
    task: u32,
    minute: u32,
}

// The minutes from the beginning of one task to that of another, at least.
fn apart(limits: &Limits<'_>, from: u32, to: u32) -> u32
    requires from { from < tasks_in limits.now.limits }
    requires to { to < tasks_in limits.now.limits }
{
    let instance = limits.instance();
    let task = instance.task(from);
    let travel = instance.travel(task.place, instance.task(to).place);
    task.minutes.saturating_add(travel)
}

// The earliest minute at which the team can begin the task, after what it does before.
fn earliest_after(limits: &Limits<'_>, team: u32, task: u32, before: Option<Stop>) -> u32
    requires team { team < teams_in limits.now.limits }
    requires task { task < tasks_in limits.now.limits }
    requires before { IfSome before (IsKnownStop limits.now.limits) }
{
    let first = match limits.minutes(team, task) {
        Some((first, _)) => first,
        None => 0,
    };
    match before {
        Some(stop) => first.max(stop.minute.saturating_add(apart(limits, stop.task, task))),
        None => first,
    }
}

// The latest minute at which the team can begin the task, before what it does next.
fn latest_before(limits: &Limits<'_>, team: u32, task: u32, next: Option<Stop>) -> u32
    requires team { team < teams_in limits.now.limits }
    requires task { task < tasks_in limits.now.limits }
    requires next { IfSome next (IsKnownStop limits.now.limits) }
{
    let last = match limits.minutes(team, task) {
        Some((_, last)) => last,
        None => u32::MAX,
    };
    match next {
        Some(stop) => last.min(stop.minute.saturating_sub(apart(limits, task, stop.task))),
        None => last,
    }
}

// The latest minutes of a team's visits, the last visit first.
fn latest_minutes(
    alloc: Global,
    limits: &Limits<'_>,
    team: u32,
    visits: &[Visit],
) -> Result<Vec<u32>, AllocError>
    requires team { team < teams_in limits.now.limits }
    requires visits { All (IsVisitOf limits.now.limits team) visits.now }
{
    let mut minutes = Vec::new(alloc);
    let mut next = None;
    for n in 0..visits.len() {
        let task = visits[visits.len() - 1 - n].task;
        let minute = latest_before(limits, team, task, next);
        minutes.push(minute)?;
        next = Some(Stop { task, minute });
    }
    Ok(minutes)
}

/// Adds a span for each visit of a team's route, of which so many parts are made. AllocError where there is no memory.
pub fn add_spans(
    alloc: Global,
    spans: &mut Vec<Span>,
    limits: &Limits<'_>,
    team: u32,
    visits: &[Visit],
    num: i128,
) -> Result<(), AllocError>
    requires team { team < teams_in limits.now.limits }
    requires visits { All (IsVisitOf limits.now.limits team) visits.now }
    requires spans { All (IsPermittedSpan limits.now.limits) spans.old.items }
    ensures { OnOk result (All (IsPermittedSpan limits.now.limits) spans.new.items) }
{
    let mut latests = latest_minutes(alloc, limits, team, visits)?;
    let mut before = None;
    for visit in visits {
        let Visit { task, start } = *visit;
        let minute = earliest_after(limits, team, task, before);
        spans.push(Span {
            one: Use {
                team,
                task,
                start,
                num,
            },
            earliest: minute.min(start),
            latest: latests.pop().unwrap_or(start).max(start),
        })?;
        before = Some(Stop { task, minute });
    }
    Ok(())
}
