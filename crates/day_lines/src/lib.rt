// The records of a day's text, each with the lines on which it stands.
#![tactic(auto)]

mod count;
mod places;

pub use count::LineCount;
pub use places::{Span, first_record, spans};
