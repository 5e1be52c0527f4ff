// What is different between two rounds.
ghost use Rattle.std.specs.Prelude.{◌≡◌, ℕ};
ghost use Rattle.std.specs.List.{list_all};
ghost use Rattle.std.specs.Option.{option_copied};
ghost use Rattle.round_changes.specs.Changes.{change_between as between, change_from, change_of as change_in, changed_count, counts_of, gone_count, has_name, is_gone as gone, is_same, job_named as named, same_teams as same};

use crate::rounds::{NamedJob, Round, has};
use crew_terms::Name;

/// What is different about a job of a round, next to the round before.
#[derive(Clone, Copy, Debug, PartialEq, Eq)]
pub enum Change {
    /// It is as it was.
    Kept,
    /// It begins at another minute.
    Moved,
    /// It begins at the same minute, and other teams do it.
    Others,
    /// The task had no job.
    New,
}

impl Change {
    /// Whether it is this kind of change.
    pub fn is(self, other: Change) -> bool
        ensures { result ≡ is_same self other }
    {
        match (self, other) {
            (Change::Kept, Change::Kept)
            | (Change::Moved, Change::Moved)
            | (Change::Others, Change::Others)
            | (Change::New, Change::New) => true,
            _ => false,
        }
    }
}

/// How many jobs are as they were, begin at another minute, are done by other teams, are new, and are gone.
#[derive(Clone, Copy, Debug, PartialEq, Eq)]
pub struct Counts {
    pub kept: usize,
    pub moved: usize,
    pub others: usize,
    pub new: usize,
    pub gone: usize,
}

/// Whether each name is one of the others.
fn are_among(xs: &[Name], ys: &[Name]) -> bool
    ensures { result ≡ list_all (has_name ys.now) xs.now }
{
    xs.iter().all(|name| has(ys, name))
}

/// Whether two lists are the same teams, in any order.
fn same_teams(xs: &[Name], ys: &[Name]) -> bool
    ensures { result ≡ same xs.now ys.now }
{
    xs.len() == ys.len() && are_among(xs, ys)
}

/// The job of the task of this name, if it has one.
pub fn job_named<'a>(jobs: &'a [NamedJob], name: &Name) -> Option<&'a NamedJob>
    ensures { option_copied result ≡ named jobs.now name.now }
{
    jobs.iter().find(|job| job.task() == name)
}

/// What is different about a job, next to the job that its task had in the round before.
pub fn change_between(before: Option<&NamedJob>, now: &NamedJob) -> Change
    ensures { result ≡ change_from (option_copied before.entry) now.now }
{
    let Some(before) = before else {
        return Change::New;
    };
    if before.start() != now.start() {
        return Change::Moved;
    }
    if same_teams(before.teams(), now.teams()) {
        Change::Kept
    } else {
        Change::Others
    }
}

/// What is different about a job, next to the jobs of the round before.
pub fn change_of(before: &[NamedJob], now: &NamedJob) -> Change
    ensures { result ≡ change_in before.now now.now }
{
    change_between(job_named(before, now.task()), now)
}

/// Whether the task of a job of the round before has none among the jobs now.
pub fn is_gone(now: &[NamedJob], before: &NamedJob) -> bool
    ensures { result ≡ gone now.now before.now }
{
    job_named(now, before.task()).is_none()
}

/// How many jobs now are changed in this way.
fn count(change: Change, before: &Round, now: &Round) -> usize
    ensures { result ≡ changed_count change before.now now.now }
{
    let mut n = 0;
    for job in now.jobs() {
        if change_of(before.jobs(), job).is(change) {
            n += 1;
        }
    }
    n
}

/// How many jobs of the round before are gone.
fn count_gone(before: &Round, now: &Round) -> usize
    ensures { result ≡ gone_count before.now now.now }
{
    let mut n = 0;
    for job in before.jobs() {
        if is_gone(now.jobs(), job) {
            n += 1;
        }
    }
    n
}

/// How many jobs are as they were, begin at another minute, are done by other teams, are new, and are gone, next to the
/// round before; all by names.
pub fn count_changes(before: &Round, now: &Round) -> Counts
    ensures { result ≡ counts_of before.now now.now }
{
    Counts {
        kept: count(Change::Kept, before, now),
        moved: count(Change::Moved, before, now),
        others: count(Change::Others, before, now),
        new: count(Change::New, before, now),
        gone: count_gone(before, now),
    }
}
