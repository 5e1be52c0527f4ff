// Tests of the program: what it answers to words and inputs, over sources and sinks in memory.
#![tactic(auto)]

#[cfg(test)]
mod answers;
#[cfg(test)]
mod asserts;
#[cfg(test)]
mod checks;
#[cfg(test)]
mod days;
#[cfg(test)]
mod delays;
#[cfg(test)]
mod faults;
#[cfg(test)]
mod forms;
#[cfg(test)]
mod lines;
#[cfg(test)]
mod rosters;
#[cfg(test)]
mod squeezes;
#[cfg(test)]
mod trees;
#[cfg(test)]
mod whys;
