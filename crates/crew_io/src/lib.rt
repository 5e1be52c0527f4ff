// Sources and sinks with a count of faults, and the lines of a source.
#![tactic(auto)]

pub mod lines;
pub mod put;
mod script;
pub mod sink;
pub mod source;
pub mod text;
