// Tests of waiting for late tasks.
#![tactic(auto)]

#[cfg(test)]
mod asserts;
#[cfg(test)]
mod texts;
#[cfg(test)]
mod waves;
