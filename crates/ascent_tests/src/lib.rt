// Tests of price ascent.
#![tactic(auto)]

#[cfg(test)]
mod closed;
#[cfg(test)]
mod days;
#[cfg(test)]
mod roots;
