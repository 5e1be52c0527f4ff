// Whether two instances are the same.
use crew_fixtures::{frozen_at, minutes_between, place_at, task_at, team_at};
use crew_instance::Instance;

/// Whether the same places, with the same travel times, are in both.
fn have_same_places(a: &Instance, b: &Instance) -> bool {
    for from in 0..a.places() as u32 {
        if place_at(a, from) != place_at(b, from) {
            return false;
        }
        for to in 0..a.places() as u32 {
            if minutes_between(a, from, to) != minutes_between(b, from, to) {
                return false;
            }
        }
    }
    a.places() == b.places()
}

/// Whether the same places, teams, tasks and frozen jobs are in both.
pub fn are_same(a: &Instance, b: &Instance) -> bool {
    let have_same_teams = (0..64).all(|k| team_at(a, k) == team_at(b, k));
    let have_same_tasks = (0..400).all(|j| task_at(a, j) == task_at(b, j));
    let have_same_frozen = (0..400).all(|j| frozen_at(a, j) == frozen_at(b, j));
    have_same_teams && have_same_tasks && have_same_frozen && have_same_places(a, b)
}
