// Tests of what is told of the faults of a day.
#![tactic(auto)]

#[cfg(test)]
mod answers;
#[cfg(test)]
mod forms;
#[cfg(test)]
mod whole;
