// Prices of nodes at rest, in little room.
#![tactic(auto)]

mod kept;
mod rows;

pub use kept::KeptPrices;
pub use potentials::Prices;
