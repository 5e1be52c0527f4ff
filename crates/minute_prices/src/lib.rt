// Minute prices: a price for each start minute of a joint task, and what they let visits earn; the minutes at which enough
// teams could begin a task; and what the teams of a task earn least together at one of them.
#![tactic(auto)]

mod bounds;
mod possible;
mod prices;
mod terms;

pub use bounds::minute_bound;
pub use possible::{Minutes, PossibleMinutes};
pub use prices::{MinutePrices, is_joint, price_count, price_place};
pub use terms::{Least, term_of};
