// How much a search does.

/// How much a search does: it looks at so many places in the orders of teams at most, where each trial counts as 200 of them
/// besides. With another seed it draws otherwise.
#[derive(Clone, Copy, Debug)]
pub struct Effort {
    pub looks: u64,
    pub seed: u64,
}
