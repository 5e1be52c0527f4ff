// The lines of a sheet behind its instance: the bound, the prices of each task, and the potentials of a team.
#![tactic(auto)]

pub mod prices;
pub mod rows;
pub mod runs;
pub mod words;

pub use rows::TeamRows;
