// What is wrong with the words of a day's record, and what to write in their place.
#![tactic(auto)]

mod forms;
mod meant;
mod near;
mod shown;
mod words;

pub use forms::{Holds, field_holds, field_name, form_of, key_of, kind_meant, kind_of};
pub use meant::{clock_meant, number_meant};
pub use near::is_near;
pub use shown::{AsName, AsSkills, Clock, Shown};
pub use words::{WordFault, word_fault};
