// The command `squeeze`: a sheet of minute prices for each good dossier of an input.
#![tactic(auto)]

mod command;
mod words;

pub use command::squeeze_dossiers;
pub use words::Squeeze;
