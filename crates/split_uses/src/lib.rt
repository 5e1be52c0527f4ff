// By which uses a node is split: by prices, by shares of routes, and by the minutes at which these routes could make their visits.
#![tactic(auto)]

mod averages;
mod favours;
mod pairs;
mod picking;
mod picks;
mod scale;
mod spans;
mod values;
mod windows;

pub use averages::{Averages, average_spans};
pub use branch_choice::Use;
pub use favours::Favours;
pub use picking::{favoured_uses, split_uses};
pub use spans::{Span, add_spans};
