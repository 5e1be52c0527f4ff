// Tests of price runs: small instances with known prices.
#![tactic(auto)]

#[cfg(test)]
mod rows;
