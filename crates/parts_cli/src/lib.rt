// The top call of the program for days in parts.
#![tactic(auto)]

pub mod run;
pub mod status;
pub mod words;
