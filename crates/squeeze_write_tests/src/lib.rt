// Tests of sheets that are written, byte for byte.
#![tactic(auto)]

#[cfg(test)]
mod sheets;
