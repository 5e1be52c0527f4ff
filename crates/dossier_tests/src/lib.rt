// Tests of the lines of a dossier, in and out, of its pool and its leaves, and of whole dossiers.
#![tactic(auto)]

#[cfg(test)]
mod asserts;
#[cfg(test)]
mod heads;
#[cfg(test)]
mod leaves;
#[cfg(test)]
mod lines;
#[cfg(test)]
mod lines_out;
#[cfg(test)]
mod pools;
#[cfg(test)]
mod whole;
