// Bundles, written: the dossier of a day with dossiers of its parts, each planned on its own.
#![tactic(auto)]

mod bundle;
mod parts;
mod piece;

pub use bundle_join::{Day, JoinFault, Proves};
pub use cert_write::PutFault;
pub use piece::{Job, put_piece};
