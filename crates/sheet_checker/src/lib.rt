// The checker of sheets: it is given the lines of sheets, one after another, and says of each what the table of a sheet's lines
// says. A sheet that it calls whole is good, and its bound holds.
#![tactic(auto)]

pub mod checker;
mod due;
mod judge;
pub mod laws;

pub use cert_checker::Stop;
pub use checker::{SheetChecker, SheetSaid};
pub use dossier_terms::Reason;
