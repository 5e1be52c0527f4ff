// Tests of `crew audit`: dossiers that belong to a day, and such as differ in one thing; lines and days of the greatest length; and
// what comes where reads, writes or the flush fail.
#![tactic(auto)]

#[cfg(test)]
mod answers;
#[cfg(test)]
mod belong;
#[cfg(test)]
mod days;
#[cfg(test)]
mod events;
#[cfg(test)]
mod faults;
#[cfg(test)]
mod kept;
#[cfg(test)]
mod lengths;
