// Tests of the command `parts-check`: what it answers to bundles, over sources and sinks in memory.
#![tactic(auto)]

#[cfg(test)]
mod asserts;
#[cfg(test)]
mod bundles;
#[cfg(test)]
mod checks;
#[cfg(test)]
mod refusals;
