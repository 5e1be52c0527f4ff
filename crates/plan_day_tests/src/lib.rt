// Tests of `crew day`: what it answers to days and writes, that `crew check` says yes to it, and what comes where reads,
// writes or the flush fail.
#![tactic(auto)]

#[cfg(test)]
mod answers;
#[cfg(test)]
mod days;
#[cfg(test)]
mod faults;
#[cfg(test)]
mod few_pivots;
#[cfg(test)]
mod frozen;
#[cfg(test)]
mod passed_on;
#[cfg(test)]
mod rounds;
#[cfg(test)]
mod stays;
