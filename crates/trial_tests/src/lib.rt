// Tests of `crew trial`: its line, its words, and what comes where a write or the flush fails.
#![tactic(auto)]

#[cfg(test)]
mod answers;
#[cfg(test)]
mod faults;
#[cfg(test)]
mod lines;
