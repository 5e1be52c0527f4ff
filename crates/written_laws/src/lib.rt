// What joins searches, dossiers and the rules of dossiers: what a search comes to is proved as the writer of dossiers needs it,
// what is written of parts that are proved is a good dossier, and the lines of an instance are read back. Each law is the
// contract of a function with nothing to do.
#![tactic(auto)]

mod read_back;
mod solved;
mod telling;
mod written;

pub use read_back::instance_is_read_back;
pub use solved::{
    run_outcomes_are_writable, solved_causes_may_be_told, solved_pools_are_of_the_instance,
    solved_trees_are_proved, told_causes_tell,
};
pub use telling::told_causes;
pub use written::{first_trees_are_proved, leaves_keep_their_prices, written_dossiers_are_good};
