// The causes of splits, and what a search hands out.
ghost use Rattle.std.specs.Prelude.{◌≡◌, ◌<◌, length, map, All, IfOk};
ghost use Rattle.search_core.specs.Ordered.{cause_with};

use branch_tree::Tree;
use crew_instance::Plan;
use node_solver::{Parts, Shares, Why};
use std::alloc::{AllocError, Global};

/// The cause of a split: how many tasks the plan that was kept at that step leaves unassigned, and why the node was split.
#[derive(Drop)]
pub struct Cause {
    pub now: u32,
    pub why: Why,
}

/// What a search hands out: its best plan, the greatest number of tasks that its tree proves unassigned, the tree with the
/// prices of its leaves, and the causes of its splits in preorder. Columns in causes are numbers of the search's columns.
#[derive(Drop)]
pub struct Outcome {
    pub plan: Plan,
    pub bound: u32,
    pub tree: Tree,
    pub causes: Vec<Cause>,
}

/// A copy of why a node is split; AllocError where there is no memory.
fn copied(alloc: Global, why: &Why) -> Result<Why, AllocError>
    ensures { IfOk result (λ copy. copy ≡ why.now) }
{
    Ok(match why {
        Why::Loose {
            den,
            shares,
            left_open,
        } => Why::Loose {
            den: *den,
            shares: Shares::of(shares.as_slice().to_vec(alloc)?),
            left_open: Parts::of(left_open.as_slice().to_vec(alloc)?),
        },
        Why::Overflow(fault) => Why::Overflow(*fault),
        Why::Spent => Why::Spent,
    })
}

/// The causes of these numbers, in this order. AllocError where there is no memory.
pub(crate) fn in_order(
    alloc: Global,
    numbers: &[u32],
    causes: &[Cause],
) -> Result<Vec<Cause>, AllocError>
    requires { All (λ k. k < length causes.now) numbers.now }
    ensures { IfOk result (λ found. found.items ≡ map (cause_with causes.now) numbers.now) }
{
    let mut found = Vec::with_capacity(alloc, numbers.len())?;
    for i in 0..numbers.len() {
        let cause = &causes[numbers[i] as usize];
        let why = copied(alloc, &cause.why)?;
        found.push(Cause {
            now: cause.now,
            why,
        })?;
    }
    Ok(found)
}
