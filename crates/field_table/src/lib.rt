// Words and the fields that they fill: lines cut into words, numbers, clocks, and rows of fields.
#![tactic(auto)]

mod clocks;
mod cuts;
mod fields;
mod laws;
mod numbers;
mod wide;

pub use clocks::{read_clock, write_clock};
pub use cuts::{Cuts, LineWords, Words};
pub use fields::{Cause, Field, FieldFault, Kind, Row, Schema, read_at};
pub use laws::one_answer;
pub use numbers::{read_number, write_number};
pub use wide::{WIDE_ROOM, read_wide, write_wide};
