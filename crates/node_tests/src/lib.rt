// Tests of the limits of a node, of plans and routes within them, of prices and potentials, and of branch trees.
#![tactic(auto)]

#[cfg(test)]
mod asserts;
#[cfg(test)]
mod limits;
#[cfg(test)]
mod plans;
#[cfg(test)]
mod routes;
#[cfg(test)]
mod rules;
#[cfg(test)]
mod trees;
#[cfg(test)]
mod walks;
