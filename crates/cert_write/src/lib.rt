// Dossiers, written: the lines of an instance, and whole dossiers from their parts.
#![tactic(auto)]

mod causes;
mod desk;
mod dossier;
mod faults;
pub mod instance;
mod laws;
mod leaf;
mod pool;
mod tables;
mod tree;

pub use causes::Cause;
pub use dossier::{Parts, write_dossier};
pub use faults::PutFault;
pub use frac_master::Share;
pub use instance::write_instance;
pub use laws::parts_have_one_dossier;
