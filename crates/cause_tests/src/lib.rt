// Tests of the cause of a split, line by line: what each line may say, in which order its faults are told, and which shares of
// columns are a loose choice.
#![tactic(auto)]

#[cfg(test)]
mod asserts;
#[cfg(test)]
mod judged;
#[cfg(test)]
mod loose;
#[cfg(test)]
mod shares;
#[cfg(test)]
mod whys;
