// Nodes of a tree by their numbers.

use crew_terms::{Choice, Side};

/// What a node is: an open or a closed leaf, with the number of its prices, or a split, with the number of its cause and
/// that of its first child; its second child has the number behind.
#[derive(Clone, Copy, Debug, PartialEq, Eq)]
pub enum Content {
    Open {
        prices: u32,
    },
    Closed {
        prices: u32,
    },
    Split {
        choice: Choice,
        cause: u32,
        first: u32,
    },
}

/// A node: what it is, the number of the split above it, and on which side of it it is. Of the root these two say nothing.
#[derive(Clone, Copy, Debug, PartialEq, Eq)]
pub struct Node {
    pub above: u32,
    pub side: Side,
    pub content: Content,
}
