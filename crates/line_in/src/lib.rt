// The words of a line: its first word and how many it has, its numbers and its name, and the first fault of these.
#![tactic(auto)]

pub mod faults;
pub mod numbers;
pub mod ranges;
pub mod refusals;
pub mod shape;
pub mod wides;

pub use faults::LineFault;
pub use numbers::LineNumbers;
pub use refusals::Refusal;
pub use wides::WideNumbers;
