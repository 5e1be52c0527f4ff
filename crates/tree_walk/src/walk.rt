// The way from the root of a tree to the node that is due.
ghost use Rattle.std.specs.Prelude.{◌≡◌, ◌≤◌, ◌<◌, ◌+◌, ◌^◌, [], ◌∷◌, drop, length, IfOk, IsTrue, ◌↔◌};
ghost use Rattle.node_limits.specs.Trail.{Trail};
ghost use Rattle.crew_terms.specs.Tree.{CanSplit};
ghost use Rattle.tree_walk.specs.Way.{Enters, IsAt, IsSomewhere, LeavesLeaf, innermost, leaves_like, with_leaf};

use crate::split::second;
use crew_terms::{Choice, Side, TreeCounts};
use node_limits::{Branch, Limits, narrow};
use std::alloc::{AllocError, Global};
use std::marker::Model;

/// The way from the root of a tree to the node that is due, where its nodes come in preorder, and the numbers of what
/// came before that node. The limits go along with it: each call takes them as the call before left them.
///
/// In contracts: the branches that lead to the node, the innermost first, the numbers so far, and how many branches it
/// has room for.
#[derive(Drop)]
pub struct Walk {
    // The outermost first.
    above: Vec<Branch>,
    seen: TreeCounts,
    depth: usize,
}

impl Model for Walk {
    ghost use Rattle.tree_walk.specs.Way.{Walked, walked};

    ghost Value = { Walked };

    ghost view = { walked };

    ghost use Rattle.tree_walk.specs.Way.{HasRoom};

    ghost invariant = { HasRoom };
}

impl Walk {
    /// A walk at the root, with room for so many splits above a node: its limits are those of a trail with no change. No
    /// other call takes memory.
    pub fn open(alloc: Global, depth: usize) -> Result<Walk, AllocError>
        ensures root { IfOk result (λ w. (t : Trail) → t.past ≡ [] → IsAt t.limits t w []) }
        ensures none { IfOk result (λ w. w.above ≡ []) }
        ensures depth { IfOk result (λ w. w.depth ≡ depth) }
    {
        Ok(Walk {
            above: Vec::with_capacity(alloc, depth)?,
            seen: TreeCounts {
                splits: 0,
                closed: 0,
                left_open: 0,
                depth: 0,
            },
            depth,
        })
    }

    /// The numbers of what came before the node that is due: of the splits above it, and of what is whole.
    pub fn seen(&self) -> TreeCounts
        ensures { result ≡ self.now.seen }
    {
        self.seen
    }

    /// How many splits are above the node that is due.
    pub fn level(&self) -> usize
        ensures level { result ≡ length self.now.above }
        ensures splits { result ≤ self.now.seen.splits }
    {
        self.above.len()
    }

    /// Whether there is no room for one more split above a node.
    pub fn is_full(&self) -> bool
        ensures { IsTrue result ↔ self.now.depth ≤ length self.now.above }
    {
        self.depth <= self.above.len()
    }

    /// Splits the node that is due, and goes into its first child. The room of the limits and the splits above a node are
    /// together as many as before.
    pub fn enter(&mut self, limits: &mut Limits<'_>, choice: Choice)
        requires split { CanSplit limits.old.limits choice }
        requires room { self.old.seen.splits + 1 < 2 ^ 32 }
        requires deeper { length self.old.above < self.old.depth }
        requires spare { 1 ≤ limits.old.spare }
        ensures enters { Enters choice limits.old self.old limits.new self.new }
        ensures depth { self.new.depth ≡ self.old.depth }
        ensures spare { limits.new.spare + length self.new.above ≡
            limits.old.spare + length self.old.above }
        ensures instance { limits.new.limits.instance ≡ limits.old.limits.instance }
    {
        let first = Branch {
            choice,
            side: Side::First,
        };
        narrow(limits, first);
        self.above.push(first).unwrap();
        self.seen.splits += 1;
    }

    /// Goes on past the node that is due, which is a leaf: to the next node in preorder, which is the second child of
    /// the innermost split that is in its first. Where there is none, the tree is whole, and true is the answer.
    pub fn leave(&mut self, limits: &mut Limits<'_>, is_closed: bool) -> bool
        requires somewhere { IsSomewhere limits.old self.old }
        requires room { leaves_like is_closed self.old.seen + 1 < 2 ^ 32 }
        ensures leaves { LeavesLeaf is_closed limits.old self.old limits.new self.new result }
        ensures depth { self.new.depth ≡ self.old.depth }
        ensures spare { limits.new.spare + length self.new.above ≡
            limits.old.spare + length self.old.above }
        ensures instance { limits.new.limits.instance ≡ limits.old.limits.instance }
    {
        self.count_leaf(is_closed);
        while let Some(branch) = self.innermost() {
            limits.undo();
            if let Some(next) = second(branch) {
                narrow(limits, next);
                self.turn(next);
                return false;
            }
            self.rise();
        }
        true
    }

    // Counts the leaf that is due.
    fn count_leaf(&mut self, is_closed: bool)
        requires { leaves_like is_closed self.old.seen + 1 < 2 ^ 32 }
        ensures above { self.new.above ≡ self.old.above }
        ensures seen { self.new.seen ≡ with_leaf is_closed (length self.old.above) self.old.seen }
        ensures depth { self.new.depth ≡ self.old.depth }
    {
        let level = self.above.len() as u32;
        if is_closed {
            self.seen.closed += 1;
        } else {
            self.seen.left_open += 1;
        }
        if self.seen.depth < level {
            self.seen.depth = level;
        }
    }

    // The branch that leads to the node that is due.
    fn innermost(&self) -> Option<Branch>
        ensures { result ≡ innermost self.now.above }
    {
        match self.above.len() {
            0 => None,
            level => Some(self.above[level - 1]),
        }
    }

    // Puts another branch in the place of the innermost one.
    fn turn(&mut self, to: Branch)
        requires { 0 < length self.old.above }
        ensures { self.new ≡ record self.old { above = to ∷ drop 1 self.old.above } }
    {
        let level = self.above.len();
        self.above[level - 1] = to;
    }

    // Goes up from the innermost branch.
    fn rise(&mut self)
        ensures { self.new ≡ record self.old { above = drop 1 self.old.above } }
    {
        self.above.pop();
    }
}
