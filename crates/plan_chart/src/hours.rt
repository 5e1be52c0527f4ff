// The hours that a chart shows.
ghost use Rattle.std.specs.Prelude.{◌≡◌, ◌≤◌, ◌*◌, length};
ghost use Rattle.crew_terms.specs.declared.TheConstants.{LAST_MINUTE};
ghost use Rattle.plan_chart.specs.Hours.{hours_of as hours_in, shifts_span, widened, windows_span};

use crew_instance::Instance;
use crew_terms::LAST_MINUTE;

/// From this minute until this one.
#[derive(Clone, Copy, Debug, PartialEq, Eq)]
pub struct Span {
    pub from: u32,
    pub until: u32,
}

/// From the beginning of this hour of the day to the beginning of this one.
#[derive(Clone, Copy, Debug, PartialEq, Eq)]
pub struct Hours {
    pub first: u32,
    pub last: u32,
}

/// A span that has these minutes too.
fn widen(span: Span, from: u32, until: u32) -> Span
    ensures { result ≡ widened span from until }
{
    Span {
        from: span.from.min(from),
        until: span.until.max(until),
    }
}

/// The span of all shifts.
fn span_of_shifts(instance: &Instance) -> Span
    ensures { result ≡ shifts_span instance.now (length instance.now.teams) }
{
    let mut span = Span {
        from: LAST_MINUTE,
        until: 0,
    };
    for k in 0..instance.teams() as u32 {
        let team = instance.team(k);
        span = widen(span, team.from, team.until);
    }
    span
}

/// The span of all shifts, and of all tasks, each from when it may begin first to when it may end last.
fn span_of_day(instance: &Instance) -> Span
    ensures { result ≡ windows_span instance.now (length instance.now.tasks) }
{
    let mut span = span_of_shifts(instance);
    for j in 0..instance.tasks() as u32 {
        let task = instance.task(j);
        span = widen(span, task.earliest, task.latest + task.minutes);
    }
    span
}

/// The whole hours around all shifts and tasks, within the day and the night behind it.
pub fn hours_of(instance: &Instance) -> Hours
    ensures hours { result ≡ hours_in instance.now }
    ensures first { result.first * 60 ≤ LAST_MINUTE }
    ensures last { result.last * 60 ≤ LAST_MINUTE }
{
    let span = span_of_day(instance);
    Hours {
        first: span.from.min(LAST_MINUTE) / 60,
        last: (span.until.min(LAST_MINUTE) + 59) / 60,
    }
}
