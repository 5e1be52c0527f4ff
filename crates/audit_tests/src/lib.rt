// Tests of an audit: small days with dossiers for their rounds, of which the last one fits or differs in one thing.
#![tactic(auto)]

#[cfg(test)]
mod asserts;
#[cfg(test)]
mod fits;
#[cfg(test)]
mod rounds;
