// Which of the places of a task are taken: those of least cost, one for each team that the task needs, with a start in all.

use crate::draws::Draws;
use crate::places::Place;
use arrayvec::ArrayVec;
use crew_terms::MOST_TEAMS_PER_TASK;

/// Places of different teams, the cheapest first.
pub(crate) type Picks = ArrayVec<Place, MOST_TEAMS_PER_TASK>;

// What the places cost together.
fn cost_of(picks: &[Place]) -> u32 {
    let mut cost = 0u32;
    for pick in picks {
        cost = cost.saturating_add(pick.cost);
    }
    cost
}

// Takes a place among so many, in place of a dearer one of its team, or of the dearest where there are enough.
fn offer(picks: &mut Picks, place: Place, wanted: usize) {
    if let Some(at) = picks.iter().position(|pick| pick.team == place.team) {
        if picks[at].cost <= place.cost {
            return;
        }
        picks.remove(at);
    }
    let at = picks.partition_point(|pick| pick.cost <= place.cost);
    if picks.len() >= wanted || picks.is_full() {
        if at >= picks.len() {
            return;
        }
        picks.pop();
    }
    picks.insert(at, place);
}

// The cheapest places at which the task can begin at the minute.
fn picks_at(places: &[Place], minute: u32, wanted: usize) -> Picks {
    let mut picks = ArrayVec::new();
    for place in places {
        if place.first <= minute && minute <= place.last {
            offer(&mut picks, *place, wanted);
        }
    }
    picks
}

// The cheapest place, the first of these.
fn cheapest_one(places: &[Place]) -> Picks {
    let mut picks = ArrayVec::new();
    if let Some(place) = places.iter().min_by_key(|place| place.cost) {
        picks.push(*place);
    }
    picks
}

// Whether one of the places has this first minute.
fn is_listed(places: &[Place], minute: u32) -> bool {
    places.iter().any(|place| place.first == minute)
}

// The cheapest places of different teams with a start in all, where there are as many as wanted.
fn cheapest_together(places: &[Place], wanted: usize) -> Picks {
    let mut best = ArrayVec::new();
    for n in 0..places.len() {
        let minute = places[n].first;
        if is_listed(&places[..n], minute) {
            continue;
        }
        let picks = picks_at(places, minute, wanted);
        let is_better = best.is_empty() || cost_of(picks.as_slice()) < cost_of(best.as_slice());
        if picks.len() == wanted && is_better {
            best = picks;
        }
    }
    best
}

/// The cheapest places of different teams with a start in all, as many as wanted, or none where there are none. Equal ones
/// are chosen by a draw.
pub(crate) fn cheapest(draws: &mut Draws, places: &mut [Place], wanted: usize) -> Picks {
    if places.is_empty() {
        return ArrayVec::new();
    }
    let turn = draws.below(places.len());
    places.rotate_left(turn);
    if wanted == 1 {
        cheapest_one(places)
    } else {
        cheapest_together(places, wanted)
    }
}
