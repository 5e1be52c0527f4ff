// Whether a tree does in a wider node.

use crate::places::limits_at;
use crate::rest::RestPrices;
use crate::scenes::{Scenes, Tour};
use crew_instance::Instance;
use label_pricing::Pricer;
use node_limits::Branch;
use std::alloc::{AllocError, Global};

/// Whether a tree does, and how many of its leaves were priced.
#[derive(Clone, Copy)]
pub(crate) struct Trial {
    pub(crate) does: bool,
    pub(crate) pricings: u32,
}

// Whether the prices prove so many unassigned tasks in the node to which the branches lead.
fn prove_at(
    alloc: Global,
    instance: &Instance,
    branches: &[Branch],
    rest: &RestPrices,
    goal: u32,
) -> Result<bool, AllocError> {
    let Some(limits) = limits_at(alloc, instance, branches)? else {
        return Ok(false);
    };
    let prices = rest.at(alloc, &limits)?;
    let mut pricer = Pricer::reserve(alloc, limits.instance())?;
    Ok(pricer.proved(&limits, &prices).count >= goal)
}

/// Whether all leaves of the tree below the node prove so many unassigned tasks where these branches lead to it; AllocError where
/// there is no memory.
pub(crate) fn try_tree(
    alloc: Global,
    instance: &Instance,
    scenes: &Scenes,
    node: usize,
    branches: Vec<Branch>,
    goal: u32,
) -> Result<Trial, AllocError> {
    let mut tour = Tour::from(alloc, node, branches)?;
    let mut pricings = 0u32;
    for _ in 0..scenes.len() {
        let Some(at) = tour.next(scenes)? else {
            break;
        };
        if let Some(rest) = scenes.prices(at) {
            pricings = pricings.saturating_add(1);
            if !prove_at(alloc, instance, tour.branches(), rest, goal)? {
                return Ok(Trial {
                    does: false,
                    pricings,
                });
            }
        }
    }
    Ok(Trial {
        does: tour.is_over(),
        pricings,
    })
}
