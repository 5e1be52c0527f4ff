// How much work a node may cost.
use column_scout::Effort as ScoutEffort;
use plan_ruin::Effort as RuinEffort;
use price_ascent::Effort as AscentEffort;
use tree_rehearsal::Effort as RehearsalEffort;

/// How much work a node may cost, in the order in which it is done. It ends as soon as prices close the node.
#[derive(Clone, Copy, Debug)]
pub struct Effort {
    /// An ascent of the node's prices.
    pub ascent: AscentEffort,
    /// A search for a better plan, which ends where it leaves what the ascent proves. Without looks there is neither this
    /// search nor another ascent.
    pub rebuild: RuinEffort,
    /// Another ascent of the prices.
    pub again: AscentEffort,
    /// A scout of columns.
    pub scout: ScoutEffort,
    /// Another search for a better plan, which ends where it leaves what the scout proves. Without looks there is none.
    pub rebuild_again: RuinEffort,
    /// A rehearsal of the tree of a search, of which the node is the root. Without programs there is none.
    pub rehearsal: RehearsalEffort,
    /// So many pivots of the master's run at most.
    pub pivots: u32,
}
