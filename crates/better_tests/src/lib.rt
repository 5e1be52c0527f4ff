// Tests of the searches for better plans.
#![tactic(auto)]

#[cfg(test)]
mod days;
#[cfg(test)]
mod ruined;
#[cfg(test)]
mod small;
