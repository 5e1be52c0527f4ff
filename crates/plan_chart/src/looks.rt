// How a job is set off from the others.
ghost use Rattle.std.specs.Prelude.{◌≡◌, ◌<◌, length};
ghost use Rattle.std.specs.Option.{option_copied};
ghost use Rattle.crew_terms.specs.Plan.{job_of};
ghost use Rattle.crew_instance.specs.Teams.{job_teams};
ghost use Rattle.plan_chart.specs.Looks.{change_among, change_since, fixed_said, fixed_sign, is_fixed as is_fixed_in, kind_of, look_of as look_in, change_said, change_sign};

use crate::counts::{is_joint, joint_before};
use crew_instance::{Instance, Plan};
use crew_terms::Name;
use round_changes::{Change, Round, change_of, job_named};

/// How many colours there are for joint jobs.
pub const COLOURS: u32 = 7;

/// How a job looks: whether several teams do it, its colour, whether it is fixed, and what is different since the round before.
#[derive(Clone, Copy, Debug, PartialEq, Eq)]
pub struct Look {
    pub joint: bool,
    pub colour: u32,
    pub fixed: bool,
    pub change: Change,
}

/// Whether task `j` has a frozen job.
fn is_fixed(instance: &Instance, j: u32) -> bool
    requires { j < length instance.now.tasks }
    ensures { result ≡ is_fixed_in instance.now j }
{
    instance.frozen(j).is_some()
}

/// What is different about the job of the task of this name, next to the round before.
fn change_in(before: &Round, now: &Round, name: &Name) -> Change
    ensures { result ≡ change_among before.now now.now name.now }
{
    match job_named(now.jobs(), name) {
        Some(job) => change_of(before.jobs(), job),
        None => Change::Kept,
    }
}

/// The same, if there was a round before.
fn change_of_task(before: &Option<Round>, now: &Round, name: &Name) -> Change
    ensures { result ≡ change_since before.now now.now name.now }
{
    match before {
        Some(before) => change_in(before, now, name),
        None => Change::Kept,
    }
}

/// How the job of task `j` looks.
pub fn look_of(
    instance: &Instance,
    plan: &Plan,
    before: &Option<Round>,
    now: &Round,
    j: u32,
) -> Look
    requires task { j < length plan.now }
    requires whole { length plan.now ≡ length instance.now.tasks }
    ensures { result ≡ look_in instance.now plan.now before.now now.now j }
{
    Look {
        joint: is_joint(plan, j),
        colour: joint_before(plan, j) % COLOURS,
        fixed: is_fixed(instance, j),
        change: change_of_task(before, now, &instance.task(j).name),
    }
}

impl Look {
    /// The word for a job of one team or several.
    pub fn kind(self) -> &'static [u8]
        ensures { result.now ≡ kind_of self.joint }
    {
        if self.joint {
            b"joint c".as_slice()
        } else {
            b"single c".as_slice()
        }
    }

    /// What is told of a fixed job.
    pub fn said_fixed(self) -> &'static [u8]
        ensures { result.now ≡ fixed_said self.fixed }
    {
        if self.fixed {
            b", fixed".as_slice()
        } else {
            b"".as_slice()
        }
    }

    /// What lies over the bar of a fixed job.
    pub fn sign_fixed(self) -> &'static [u8]
        ensures { result.now ≡ fixed_sign self.fixed }
    {
        if self.fixed {
            b"<rect class='fixed' width='100%' height='100%'/>".as_slice()
        } else {
            b"".as_slice()
        }
    }

    /// What is told of a change.
    pub fn said_change(self) -> &'static [u8]
        ensures { result.now ≡ change_said self.change }
    {
        match self.change {
            Change::Kept => b"".as_slice(),
            Change::Moved => b", moved".as_slice(),
            Change::Others => b", by other teams".as_slice(),
            Change::New => b", new".as_slice(),
        }
    }

    /// The mark of a bar of a job that is not as it was.
    pub fn sign_change(self) -> &'static [u8]
        ensures { result.now ≡ change_sign self.change }
    {
        match self.change {
            Change::Kept => b"".as_slice(),
            Change::Moved | Change::Others | Change::New =>
                b"<rect class='mark' width='100%' height='2'/>".as_slice(),
        }
    }
}
