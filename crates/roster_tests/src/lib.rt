// Tests of rosters.
#![tactic(auto)]

#[cfg(test)]
mod asserts;
#[cfg(test)]
mod rosters;
