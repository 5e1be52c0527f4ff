// Tests of the master problem: masters that are worked out by hand.
#![tactic(auto)]

pub mod asked;
#[cfg(test)]
mod asserts;
#[cfg(test)]
mod masters;
#[cfg(test)]
mod rounding;
