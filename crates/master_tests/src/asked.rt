// What is asked of a master, where it is of these limits.
ghost use Rattle.std.specs.Prelude.{◌≡◌, ◌<◌, ◌+◌, All, IfOk, OnOk};
ghost use Rattle.crew_terms.specs.Limits.{teams_in};
ghost use Rattle.search_terms.specs.Opening.{places};

use crew_num::Overflow;
use frac_master::{Added, Master, Solved};
use master_laws::places_are;
use node_limits::{Limits, Pair, Visit};
use std::alloc::{AllocError, Global};

/// A number as numerator and denominator, or an overflow; None where there is no such task or required pair.
pub type Given = Option<Result<(i128, i128), Overflow>>;

/// Enters the route as the column of this number.
fn enter(
    master: &mut Master,
    limits: &Limits<'_>,
    column: usize,
    team: u32,
    visits: &[Visit],
) -> Result<Added, AllocError>
    requires places { master.old.places ≡ places limits.now.limits }
    requires team { team < teams_in limits.now.limits }
    requires rising { All (λ id. id < column) master.old.columns }
    ensures places { master.new.places ≡ places limits.now.limits }
    ensures columns { All (λ id. id < column + 1) master.new.columns }
{
    places_are();
    master.add_column(column, team, visits)
}

/// The master of the node with these routes, of which those of unknown teams are left out.
pub fn master_of(
    alloc: Global,
    limits: &Limits<'_>,
    routes: &[(u32, &[Visit])],
) -> Result<Master, AllocError>
    ensures { IfOk result (λ m. m.places ≡ places limits.now.limits) }
{
    let mut master = Master::open(alloc, limits)?;
    for (i, (team, visits)) in routes.iter().enumerate() {
        if (*team as usize) < limits.instance().teams() {
            let _ = enter(&mut master, limits, i, *team, visits)?;
        }
    }
    Ok(master)
}

/// Pivots, at most so many.
pub fn solve(master: &mut Master, pivots: u32) -> Solved
    ensures { master.new.places ≡ master.old.places }
{
    master.solve(pivots)
}

/// The price of task `j`.
pub fn price(master: &Master, limits: &Limits<'_>, j: u32) -> Given
    requires { master.now.places ≡ places limits.now.limits }
{
    if j as usize >= limits.instance().tasks() {
        return None;
    }
    places_are();
    Some(master.price(j))
}

/// The extra of team `k` at task `j`.
pub fn extra(master: &Master, limits: &Limits<'_>, k: u32, j: u32) -> Given
    requires { master.now.places ≡ places limits.now.limits }
{
    let instance = limits.instance();
    if k as usize >= instance.teams() {
        return None;
    }
    if j as usize >= instance.tasks() {
        return None;
    }
    places_are();
    match limits.pair(k, j) {
        Pair::Required => Some(master.extra(k, j)),
        Pair::Free | Pair::Forbidden => None,
    }
}
