// Tests of the command `parts`: the bundles that it writes, over sources and sinks in memory, and what `parts-check` says of them.
#![tactic(auto)]

#[cfg(test)]
mod asserts;
#[cfg(test)]
mod days;
#[cfg(test)]
mod faults;
#[cfg(test)]
mod written;
