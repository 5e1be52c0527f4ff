// The top call, `run`: it takes the words of the command line, a source and a sink, and answers a status.
#![tactic(auto)]

pub mod laws;
pub mod run;
pub mod status;
pub mod steady;
