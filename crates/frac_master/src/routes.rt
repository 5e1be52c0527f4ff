// The numbers of a route in the opening rows.

ghost use Rattle.std.specs.Prelude.{◌≡◌, ◌≤◌, ◌^◌, ◌≤ℤ◌, ◌<ℤ◌, pos, length, IfOk};
ghost use Rattle.search_terms.specs.Opening.{visit_number as visit_number_of};
ghost use Rattle.share_terms.specs.Shares.{visits_to as visits_to_of};
ghost use Rattle.frac_master.specs.Columns.{IsColumn, route_of};

use crate::basics::opens;
use crate::opening::cost;
use crew_terms::Visit;
use search_terms::{Place, VALUE};
use std::alloc::{AllocError, Global};

/// The places of the opening rows' basic variables, and the route's number in each of these rows; last the value's.
#[derive(Drop)]
pub struct Column {
    pub at: Vec<usize>,
    pub numbers: Vec<i128>,
}

/// How many of the visits are to the task.
pub fn visits_to(task: u32, visits: &[Visit]) -> usize
    ensures value { result ≡ visits_to_of task visits.now }
    ensures most { result ≤ length visits.now }
{
    let mut count: usize = 0;
    for v in visits {
        if v.task == task {
            count += 1;
        }
    }
    count
}

/// The route's number in the row that opens with b.
pub fn visit_number(team: u32, visits: &[Visit], b: Place) -> i128
    ensures value { result ≡ visit_number_of (route_of team visits.now) b }
    ensures low { pos 0 ≤ℤ result }
    ensures high { result <ℤ pos (2 ^ 64) }
{
    match b {
        Place::Unused(k) if k == team => 1,
        Place::Shortage(j) => visits_to(j, visits) as i128,
        Place::Missed(k, j) if k == team => visits_to(j, visits) as i128,
        _ => 0,
    }
}

/// The route's numbers in the opening rows.
pub fn column_of(
    alloc: Global,
    places: &[Place],
    team: u32,
    visits: &[Visit],
) -> Result<Column, AllocError>
    requires { length places.now ≤ 2 ^ 32 }
    ensures { IfOk result (λ c. IsColumn places.now
        (route_of team visits.now) c.at.items c.numbers.items) }
{
    let mut at = Vec::new(alloc);
    let mut numbers = Vec::new(alloc);
    let mut sum: i128 = 0;
    for (j, p) in places.iter().enumerate() {
        if opens(*p) {
            let number = visit_number(team, visits, *p);
            at.push(j)?;
            numbers.push(number)?;
            sum += cost(*p) * number;
        }
    }
    at.push(VALUE)?;
    numbers.push(sum)?;
    Ok(Column { at, numbers })
}
