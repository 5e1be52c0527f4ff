// Tests of where a node is split, and of what closes a decided one.
#![tactic(auto)]

#[cfg(test)]
mod choices;
#[cfg(test)]
mod closings;
#[cfg(test)]
mod splits;
