// Tests of why tasks are open.
#![tactic(auto)]

#[cfg(test)]
mod asserts;
#[cfg(test)]
mod obstacles;
#[cfg(test)]
mod texts;
