// The local rules of a team by minute prices: which potentials and worths hold at a node, where a visit's reward depends on its
// minute.
#![tactic(auto)]

mod ahead;
mod rules;

pub use rules::{RuleRoom, minute_rules};
