// Tests of the columns of a search, in vectors and in an arena.
#![tactic(auto)]

#[cfg(test)]
mod asserts;
#[cfg(test)]
mod carried;
#[cfg(test)]
mod filtered;
#[cfg(test)]
mod kept;
#[cfg(test)]
mod many;
