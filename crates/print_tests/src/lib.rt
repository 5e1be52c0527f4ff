// Tests of generated days.
#![tactic(auto)]

#[cfg(test)]
mod days;
