// When enough teams are free for an open task.
ghost use Rattle.std.specs.Prelude.{◌≡◌, ◌≤◌, ◌<◌, length, count_by, IfSome};
ghost use Rattle.crew_terms.specs.declared.TheConstants.{LAST_MINUTE};
ghost use Rattle.crew_terms.specs.Legal.{IsLegal};
ghost use Rattle.why_not.specs.Fits.{first_fit, is_free};

use crate::days::Days;
use crew_instance::{Instance, Plan};
use team_days::Obstacle;

/// How many of these are free.
pub(crate) fn count_free(row: &[Obstacle]) -> usize
    ensures { result ≡ count_by is_free row.now }
{
    let mut free = 0;
    for obstacle in row {
        if obstacle.is_free() {
            free += 1;
        }
    }
    free
}

/// The first minute at which enough teams are free for task `j`.
pub(crate) fn first_fit_in(days: &Days<'_>, j: u32) -> Option<u32>
    requires { j < length days.now.instance.tasks }
    ensures fit { result ≡ first_fit days.now.instance days.now.plan j }
    ensures day { IfSome result (λ t. t ≤ LAST_MINUTE) }
{
    let task = days.instance().task(j);
    for t in task.earliest..task.latest + 1 {
        if count_free(&days.row(j, t)) >= task.teams as usize {
            return Some(t);
        }
    }
    None
}

/// The first minute of its window at which as many teams are free for the unassigned task `j` of a legal plan as the task
/// needs, so that it can be added then: `None` exactly where there is none. It takes no memory.
pub fn fits(instance: &Instance, plan: &Plan, j: u32) -> Option<u32>
    requires legal { IsLegal instance.now plan.now }
    requires task { j < length instance.now.tasks }
    ensures { result ≡ first_fit instance.now plan.now j }
{
    first_fit_in(&Days::new(instance, plan), j)
}
