// Tests of a day's records, and of a day under changes.
#![tactic(auto)]

#[cfg(test)]
mod alike;
#[cfg(test)]
mod asserts;
#[cfg(test)]
mod changes;
#[cfg(test)]
mod frozen;
#[cfg(test)]
mod given;
#[cfg(test)]
mod records;
#[cfg(test)]
mod refusals;
