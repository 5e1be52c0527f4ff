// The frozen jobs of a part, which are those that its tasks have in the whole.
ghost use Rattle.std.specs.Prelude.{◌≡◌, ◌<◌, ◌↔◌, All, length, IsTrue};
ghost use Rattle.crew_terms.specs.Plan.{job_of};
ghost use Rattle.part_terms.specs.Parts.{cut_down};

use crew_instance::Instance;

/// Whether task `k` of the part has the frozen job of task `j` of the whole, or neither has one.
fn has_same_job(whole: &Instance, part: &Instance, j: u32, k: u32) -> bool
    requires there { j < length whole.now.tasks }
    requires here { k < length part.now.tasks }
    ensures { IsTrue result ↔ (job_of part.now.frozen k ≡ job_of whole.now.frozen j) }
{
    match (part.frozen(k), whole.frozen(j)) {
        (None, None) => true,
        (Some((start, teams)), Some((other, others))) => start == other && teams == others,
        _ => false,
    }
}

/// Whether the part's tasks have the frozen jobs that they have in the whole, where they have these numbers.
pub(crate) fn has_same_jobs(whole: &Instance, part: &Instance, tasks: &[u32]) -> bool
    requires known { All (λ t. t < length whole.now.tasks) tasks.now }
    requires count { length tasks.now ≡ length part.now.tasks }
    ensures { IsTrue result ↔ (part.now.frozen ≡ cut_down whole.now.frozen tasks.now) }
{
    for k in 0..part.tasks() {
        if !has_same_job(whole, part, tasks[k], k as u32) {
            return false;
        }
    }
    true
}
