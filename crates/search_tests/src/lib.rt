// Tests of the search over its open leaves.
#![tactic(auto)]

#[cfg(test)]
mod asserts;
#[cfg(test)]
mod orders;
#[cfg(test)]
mod solving;
#[cfg(test)]
mod steps;
