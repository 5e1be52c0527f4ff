// Trees of choices with prices at their leaves, and how they are looked through.

use crate::rest::RestPrices;
use crew_terms::{Choice, Side};
use node_limits::Branch;
use std::alloc::{AllocError, Global};

/// A node of a tree: a leaf with its prices, or a split with the numbers of its children.
#[derive(Drop)]
pub(crate) enum Scene {
    Leaf(RestPrices),
    Split {
        choice: Choice,
        first: usize,
        second: usize,
    },
}

/// Nodes of trees, by their numbers.
#[derive(Drop)]
pub(crate) struct Scenes {
    list: Vec<Scene>,
}

impl Scenes {
    /// No nodes.
    pub(crate) fn none(alloc: Global) -> Scenes {
        Scenes {
            list: Vec::new(alloc),
        }
    }

    /// How many nodes there are.
    pub(crate) fn len(&self) -> usize {
        self.list.len()
    }

    /// Adds a node, and gives its number; AllocError where there is no memory.
    pub(crate) fn add(&mut self, scene: Scene) -> Result<usize, AllocError> {
        let at = self.list.len();
        self.list.push(scene)?;
        Ok(at)
    }

    /// The prices of a leaf.
    pub(crate) fn prices(&self, at: usize) -> Option<&RestPrices> {
        match self.list.get(at)? {
            Scene::Leaf(prices) => Some(prices),
            Scene::Split { .. } => None,
        }
    }

    /// The choice of a split.
    pub(crate) fn choice(&self, at: usize) -> Option<Choice> {
        match self.list.get(at)? {
            Scene::Split { choice, .. } => Some(*choice),
            Scene::Leaf(_) => None,
        }
    }

    /// The child of a split on this side.
    pub(crate) fn child(&self, at: usize, side: Side) -> Option<usize> {
        match self.list.get(at)? {
            Scene::Split { first, second, .. } => Some(match side {
                Side::First => *first,
                Side::Second => *second,
            }),
            Scene::Leaf(_) => None,
        }
    }
}

/// A node that is to be looked at, how many branches lead to the one above, and the branch from there.
#[derive(Clone, Copy)]
struct Due {
    node: usize,
    above: usize,
    branch: Option<Branch>,
}

/// How far a tree is looked through: what is due, and the branches to the node that was looked at last.
#[derive(Drop)]
pub(crate) struct Tour {
    due: Vec<Due>,
    branches: Vec<Branch>,
}

impl Tour {
    /// The node is due, to which these branches lead. AllocError where there is no memory.
    pub(crate) fn from(
        alloc: Global,
        node: usize,
        branches: Vec<Branch>,
    ) -> Result<Tour, AllocError> {
        let mut due = Vec::new(alloc);
        due.push(Due {
            node,
            above: branches.len(),
            branch: None,
        })?;
        Ok(Tour { due, branches })
    }

    // The child of the node that was looked at last is due.
    fn push(&mut self, node: Option<usize>, branch: Branch) -> Result<(), AllocError> {
        let Some(node) = node else {
            return Ok(());
        };
        self.due.push(Due {
            node,
            above: self.branches.len(),
            branch: Some(branch),
        })?;
        Ok(())
    }

    /// The next node, whose children are due then; None where none is due.
    pub(crate) fn next(&mut self, scenes: &Scenes) -> Result<Option<usize>, AllocError> {
        let Some(
            Due {
                node,
                above,
                branch,
            },
        ) = self.due.pop()
        else {
            return Ok(None);
        };
        self.branches.truncate(above);
        if let Some(branch) = branch {
            self.branches.push(branch)?;
        }
        if let Some(choice) = scenes.choice(node) {
            for side in [Side::Second, Side::First] {
                self.push(scenes.child(node, side), Branch { choice, side })?;
            }
        }
        Ok(Some(node))
    }

    /// The branches to the node that was looked at last.
    pub(crate) fn branches(&self) -> &[Branch] {
        &self.branches
    }

    /// Whether nothing is due.
    pub(crate) fn is_over(&self) -> bool {
        self.due.is_empty()
    }
}
