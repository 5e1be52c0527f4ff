// How far a dossier has been read: the line that is due, and what is kept of the lines before it.

use crew_instance::Plan;
use crew_terms::{Choice, TreeCounts};
use head_check::{Base, HeadDue};
use leaf_check::LeafReader;
use node_limits::Held;
use route_pool::Pool;
use share_check::ShareSums;
use tree_walk::Walk;

/// A dossier without its tree. The routes of the pool and the jobs of the plan may not all be read yet.
#[derive(Drop)]
pub struct BegunDossier {
    /// The form, the instance and the node budget.
    pub base: Base,
    /// How many routes of the pool come from the round before.
    pub kept: u64,
    /// The limits of the node that is due; before the tree is read, those of its root.
    pub limits: Held,
    /// The routes that are read so far.
    pub pool: Pool,
    /// The plan, with the jobs that are read so far.
    pub plan: Plan,
    /// The bound of the line `plan`; 0 before that line.
    pub bound: u32,
}

/// A dossier whose tree is being read.
#[derive(Drop)]
pub struct TreeDraft {
    /// All that came before the line `tree`.
    pub draft: Box<BegunDossier>,
    /// The numbers of the line `tree`.
    pub claimed: TreeCounts,
    /// How many tasks the plan leaves unassigned.
    pub unassigned: u32,
    /// The way to the node that is due, and the numbers of what came before it.
    pub walk: Walk,
    /// Of how many of the splits so far no cause is shown.
    pub unshown: u32,
    /// What reads the leaves with prices.
    pub reader: LeafReader,
    /// The loose cause whose shares are read, or that was read last.
    pub loose: LooseDraft,
    /// The sums of its shares.
    pub sums: ShareSums,
}

/// A loose cause of a split, as its first line has it.
#[derive(Clone, Copy)]
pub struct LooseDraft {
    /// How the node is split.
    pub choice: Choice,
    /// How many tasks the plan left unassigned.
    pub now: u32,
    /// Of how many parts is one share.
    pub whole: u128,
}

/// What stands for the loose cause that was read last, where none was.
pub const NO_LOOSE: LooseDraft = LooseDraft {
    choice: Choice::Window { task: 0, cut: 0 },
    now: 0,
    whole: 1,
};

/// A whole dossier, with the room of its tree.
#[derive(Drop)]
pub struct EndedDossier {
    /// All that came before its line `end`.
    pub tree: Box<TreeDraft>,
    /// The numbers of the tree.
    pub counts: TreeCounts,
}

/// The line that is due, with what was read; `more` lines of its kind come after it.
#[derive(Drop)]
pub enum Due {
    /// A line of the head.
    Head(HeadDue),
    /// The line `pool`.
    Pool {
        base: Box<Base>,
    },
    /// A line `route`.
    Route {
        draft: Box<BegunDossier>,
        more: u64,
    },
    /// The line `plan`.
    Plan {
        draft: Box<BegunDossier>,
    },
    /// A line `do`.
    Job {
        draft: Box<BegunDossier>,
        more: u64,
        /// The least task that the line may be of: the one after that of the line before.
        from: u64,
    },
    /// The line `tree`.
    Tree {
        draft: Box<BegunDossier>,
    },
    /// The line of a node: `window`, `pair` or `leaf`.
    Node {
        tree: Box<TreeDraft>,
    },
    /// The line `why` of a node that is split so.
    Why {
        tree: Box<TreeDraft>,
        choice: Choice,
    },
    /// A line `share` of a loose cause.
    Share {
        tree: Box<TreeDraft>,
        more: u64,
        /// The least column that the line may be of: the one after that of the line before.
        from: u64,
    },
    /// The line `spare` of a loose cause.
    Spare {
        tree: Box<TreeDraft>,
    },
    /// A line of a leaf that has prices: `price`, `extra`, `worth`, and `phi` or `steps`.
    Leaf {
        tree: Box<TreeDraft>,
        /// Whether the leaf began with the line `leaf closed`.
        is_closed: bool,
    },
    /// The line `end`.
    End {
        tree: Box<TreeDraft>,
        /// The numbers of the tree that was read.
        seen: TreeCounts,
    },
}

/// What is said of a line that breaks no rule.
#[derive(Drop)]
pub enum Step {
    /// This is due next.
    More(Due),
    /// It ends a good dossier.
    Whole(EndedDossier),
}
