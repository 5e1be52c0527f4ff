// Tests of pricing: rows with known answers, and small nodes against every route that is written out.
#![tactic(auto)]

#[cfg(test)]
mod asserts;
#[cfg(test)]
mod nodes;
#[cfg(test)]
mod priced;
#[cfg(test)]
mod rows;
