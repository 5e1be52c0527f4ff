// Which jobs have several teams, and how many of the first tasks are open or joint.
ghost use Rattle.std.specs.Prelude.{◌≡◌, ◌≤◌, ◌<◌, count_by, is_none, length, take};
ghost use Rattle.crew_terms.specs.Plan.{job_of};
ghost use Rattle.plan_chart.specs.Counts.{has_several};

use crew_instance::Plan;

/// Whether several teams do task `j` together.
pub fn is_joint(plan: &Plan, j: u32) -> bool
    requires { j < length plan.now }
    ensures { result ≡ has_several (job_of plan.now j) }
{
    plan.teams(j).len() > 1
}

/// How many of the first `j` tasks are open.
pub fn open_before(plan: &Plan, j: u32) -> u32
    requires { j ≤ length plan.now }
    ensures count { result ≡ count_by is_none (take j plan.now) }
    ensures few { result ≤ j }
{
    let mut n = 0;
    for h in 0..j {
        if plan.start(h).is_none() {
            n += 1;
        }
    }
    n
}

/// How many of the first `j` tasks several teams do together.
pub fn joint_before(plan: &Plan, j: u32) -> u32
    requires { j ≤ length plan.now }
    ensures count { result ≡ count_by has_several (take j plan.now) }
    ensures few { result ≤ j }
{
    let mut n = 0;
    for h in 0..j {
        if is_joint(plan, h) {
            n += 1;
        }
    }
    n
}
