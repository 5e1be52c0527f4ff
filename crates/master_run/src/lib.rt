// The run of a node's master over the columns that are routes in the node, which goes on as columns are found.
#![tactic(auto)]

mod halt;
mod prices;
mod run;
mod shares;

pub use halt::Halt;
pub use run::Run;
pub use shares::Solution;
