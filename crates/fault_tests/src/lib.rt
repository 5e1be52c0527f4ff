// Tests of the faults of mutated days, against what `apply` says of them.
#![tactic(auto)]

#[cfg(test)]
mod edits;
#[cfg(test)]
mod mutated;
