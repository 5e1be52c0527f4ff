// Instances, part by part.
ghost use Rattle.std.specs.Prelude.{◌≡◌, ◌<◌, ◌↔◌, length, slice_index_or, [], IsTrue};
ghost use Rattle.crew_terms.specs.Plan.{job_of};

use crew_instance::Instance;

/// Whether the places are the same, in order.
fn have_same_places(a: &Instance, b: &Instance) -> bool
    ensures { IsTrue result ↔ (a.now.places ≡ b.now.places) }
{
    if a.places() != b.places() {
        return false;
    }
    for p in 0..a.places() as u32 {
        if a.place(p) != b.place(p) {
            return false;
        }
    }
    true
}

/// Whether the teams are the same, in order.
fn have_same_teams(a: &Instance, b: &Instance) -> bool
    ensures { IsTrue result ↔ (a.now.teams ≡ b.now.teams) }
{
    if a.teams() != b.teams() {
        return false;
    }
    for k in 0..a.teams() as u32 {
        if a.team(k) != b.team(k) {
            return false;
        }
    }
    true
}

/// Whether the tasks are the same, in order.
fn have_same_tasks(a: &Instance, b: &Instance) -> bool
    ensures { IsTrue result ↔ (a.now.tasks ≡ b.now.tasks) }
{
    if a.tasks() != b.tasks() {
        return false;
    }
    for j in 0..a.tasks() as u32 {
        if a.task(j) != b.task(j) {
            return false;
        }
    }
    true
}

/// Whether the minutes from place `p` to each place are the same.
fn have_same_minutes_from(a: &Instance, b: &Instance, p: u32) -> bool
    requires places { a.now.places ≡ b.now.places }
    requires place { p < length a.now.places }
    ensures { IsTrue result ↔
        (slice_index_or a.now.travel p [] ≡ slice_index_or b.now.travel p []) }
{
    // What always holds of the other instance is known from here on.
    let _ = b.places();
    for q in 0..a.places() as u32 {
        if a.travel(p, q) != b.travel(p, q) {
            return false;
        }
    }
    true
}

/// Whether the travel times are the same.
fn have_same_times(a: &Instance, b: &Instance) -> bool
    requires { a.now.places ≡ b.now.places }
    ensures { IsTrue result ↔ (a.now.travel ≡ b.now.travel) }
{
    let _ = b.places();
    for p in 0..a.places() as u32 {
        if !have_same_minutes_from(a, b, p) {
            return false;
        }
    }
    true
}

/// Whether task `j` has the same frozen job, or none in both.
fn have_same_job(a: &Instance, b: &Instance, j: u32) -> bool
    requires here { j < length a.now.tasks }
    requires there { j < length b.now.tasks }
    ensures { IsTrue result ↔ (job_of a.now.frozen j ≡ job_of b.now.frozen j) }
{
    match (a.frozen(j), b.frozen(j)) {
        (None, None) => true,
        (Some((start, teams)), Some((other, others))) => start == other && teams == others,
        _ => false,
    }
}

/// Whether the frozen jobs are the same.
fn have_same_jobs(a: &Instance, b: &Instance) -> bool
    requires { a.now.tasks ≡ b.now.tasks }
    ensures { IsTrue result ↔ (a.now.frozen ≡ b.now.frozen) }
{
    let _ = b.tasks();
    for j in 0..a.tasks() as u32 {
        if !have_same_job(a, b, j) {
            return false;
        }
    }
    true
}

/// Whether the two instances are the same: their places, teams, tasks, travel times and frozen jobs are the same, in order.
pub fn are_same(a: &Instance, b: &Instance) -> bool
    ensures { IsTrue result ↔ (a.now ≡ b.now) }
{
    have_same_places(a, b)
        && have_same_teams(a, b)
        && have_same_tasks(a, b)
        && have_same_times(a, b)
        && have_same_jobs(a, b)
}
