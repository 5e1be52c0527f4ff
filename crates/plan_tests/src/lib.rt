// Plans that are legal and packed, and where a team is free, on small days.
#![tactic(auto)]

#[cfg(test)]
mod built;
#[cfg(test)]
mod obstacles;
