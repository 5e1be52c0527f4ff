// Whether two instances are the same one: all that an instance is, is compared.
#![tactic(auto)]

mod same;

pub use same::are_same;
