// A reader of the lines of a sheet behind its instance: the bound, the prices of each task, the worth and the potentials of
// each team, which are judged at the team's last line, and the end.
#![tactic(auto)]

mod prices;
mod reader;
mod teams;

pub use reader::{SheetReader, SheetStep};
