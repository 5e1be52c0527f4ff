// The worths of the classes of a node at some prices, and the routes that earn them.
ghost use Rattle.potentials.specs.Prices.{ArePricesOf};

use crate::rows::{Class, Rows};
use crew_terms::Visit;
use label_pricing::Pricer;
use node_limits::Limits;
use potentials::{Prices, bound};
use std::alloc::{AllocError, Global};

/// A route that earns the most for a team.
#[derive(Drop)]
pub(crate) struct BestRoute {
    pub(crate) team: u32,
    pub(crate) visits: Vec<Visit>,
}

/// The bound of the prices, in 1/D of a task, and a route that earns the most of each class.
#[derive(Drop)]
pub(crate) struct Seen {
    pub(crate) bound: i128,
    pub(crate) routes: Vec<BestRoute>,
}

/// What is seen at the prices; AllocError where there is no memory.
pub(crate) fn look(
    alloc: Global,
    limits: &Limits<'_>,
    rows: &Rows,
    prices: &Prices,
) -> Result<Seen, AllocError>
    requires { ArePricesOf limits.now.limits prices.now }
{
    let mut pricer = Pricer::reserve(alloc, limits.instance())?;
    let none = vec![in alloc; 0; limits.instance().teams()]?;
    let mut seen = Seen {
        bound: bound(limits, prices, &none),
        routes: Vec::new(alloc),
    };
    for class in &rows.classes {
        let Class { first, teams } = *class;
        if (first as usize) < limits.instance().teams() {
            let worth = i128::from(pricer.price(limits, first, prices));
            seen.bound = seen
                .bound
                .saturating_sub(worth.saturating_mul(i128::from(teams)));
            seen.routes.push(BestRoute {
                team: first,
                visits: pricer.route().to_vec(alloc)?,
            })?;
        }
    }
    Ok(seen)
}
