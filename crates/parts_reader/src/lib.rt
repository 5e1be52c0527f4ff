// Bundles, read one after another: the dossier of a day, and those of its parts, each of which is looked at behind the one before.
#![tactic(auto)]

mod bundle;
mod dossier;
mod halt;
mod line;
mod parts;
mod reason;

pub use bundle::{BundleVerdict, Outcome, next_bundle};
pub use reason::BundleReason;
