// The top call of the program for those who look.
#![tactic(auto)]

pub mod run;
pub mod status;
