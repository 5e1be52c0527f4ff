// Tests of what a step of the search makes of a node, of the run of its master, and of the tree that the steps grow.
#![tactic(auto)]

#[cfg(test)]
mod asked;
#[cfg(test)]
mod asserts;
#[cfg(test)]
mod runs;
#[cfg(test)]
mod steps;
#[cfg(test)]
mod trees;
