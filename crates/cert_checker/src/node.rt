// The lines of nodes: `window`, `pair` and `leaf`.
ghost use Rattle.std.specs.Prelude.{◌≡◌, ◌<◌, ◌↔◌, List, IsTrue, if◌then◌else◌};
ghost use Rattle.crew_terms.specs.Limits.{tasks_in, teams_in};
ghost use Rattle.crew_terms.specs.Branches.{LeafNode, Claim};
ghost use Rattle.dossier_terms.specs.Causes.{Cause, unshown_in};
ghost use Rattle.dossier_terms.specs.Dossier.{Leaf};
ghost use Rattle.dossier_terms.specs.Reading.{node_done, split_done, Above};
ghost use Rattle.crew_terms.specs.Tree.{CanSplit, IsFreePair};
ghost use Rattle.tree_walk.specs.Way.{IsLeaf};
ghost use Rattle.cert_checker.specs.Due.{Awaits, HasLeafRoom, HasSplitLeft, IsAwaited, IsInTree, IsKnown, IsAtNode, IsStep, MaySplit, Tells, draft_of};
ghost use Rattle.dossier_terms.specs.NodeTable.{after_bare, after_leaf, after_split, split_fault};

use crate::due::{Due, Step, TreeDraft};
use cert_format::{NodeLine, fault_is_refused, read_node};
use crew_terms::{Choice, Pair};
use dossier_terms::{DossierForm, Reason};
use field_table::LineWords;
use node_limits::Limits;
use std::alloc::Global;
use tree_walk::is_cut;

/// Whether the numbers that are claimed have room for a split of the node that is due.
fn has_split_room(tree: &TreeDraft) -> bool
    ensures { IsTrue result ↔ HasSplitLeft tree.now }
{
    tree.walk.seen().splits < tree.claimed.splits && tree.walk.level() < tree.claimed.depth as usize
}

/// Whether the numbers that are claimed have room for a leaf of this kind.
fn has_leaf_room(tree: &TreeDraft, is_closed: bool) -> bool
    ensures { IsTrue result ↔ HasLeafRoom tree.now is_closed }
{
    if is_closed {
        tree.walk.seen().closed < tree.claimed.closed
    } else {
        tree.walk.seen().left_open < tree.claimed.left_open
    }
}

/// What is due behind a leaf of this kind.
pub fn leave(alloc: Global, mut tree: Box<TreeDraft>, is_closed: bool) -> Due
    requires node { IsInTree tree.value }
    requires room { HasLeafRoom tree.value is_closed }
    ensures { (fs : List Above) (claim : Claim Leaf) → IsAtNode tree.value fs
        → IsLeaf is_closed claim → Awaits result
        (node_done (draft_of tree.value.draft.value) tree.value.claimed fs (LeafNode claim)) }
{
    let held = &mut *tree;
    let draft = &mut *held.draft;
    let mut limits = Limits::wake(&draft.base.instance, draft.limits.take(alloc));
    let is_whole = held.walk.leave(&mut limits, is_closed);
    draft.limits = limits.rest();
    if !is_whole {
        return Due::Node { tree };
    }
    let seen = held.walk.seen();
    Due::End { tree, seen }
}

/// Whether nothing is said yet of the team and the task.
fn is_free(limits: &Limits<'_>, team: u32, task: u32) -> bool
    requires team { team < teams_in limits.now.limits }
    requires task { task < tasks_in limits.now.limits }
    ensures { IsTrue result ↔ IsFreePair limits.now.limits team task }
{
    match limits.pair(team, task) {
        Pair::Free => true,
        Pair::Forbidden | Pair::Required => false,
    }
}

/// Whether the node can be split so.
fn can_split(limits: &Limits<'_>, choice: Choice) -> bool
    requires { IsKnown limits.now.limits.instance choice }
    ensures { IsTrue result ↔ CanSplit limits.now.limits choice }
{
    match choice {
        Choice::Window { task, cut } => is_cut(limits, task, cut),
        Choice::Pair { team, task } => is_free(limits, team, task),
    }
}

/// Why the node can't be split so.
fn split_fault(choice: Choice) -> Reason
    ensures { result ≡ split_fault choice }
{
    match choice {
        Choice::Window { .. } => Reason::Cut,
        Choice::Pair { .. } => Reason::Pair,
    }
}

/// 1 of a split whose cause is not shown.
fn unshown_by(is_shown: bool) -> u32
    ensures { result ≡ (if is_shown then 0 else 1) }
{
    if is_shown { 0 } else { 1 }
}

/// What is due behind a split of the node that is due, whose cause is shown or not: its first child.
pub fn first_child(alloc: Global, mut tree: Box<TreeDraft>, choice: Choice, is_shown: bool) -> Due
    requires { (fs : List Above) × MaySplit tree.value choice fs }
    ensures { (fs : List Above) (cause : Cause) → IsAtNode tree.value fs
        → unshown_in cause ≡ (if is_shown then 0 else 1) → Awaits result
        (split_done (draft_of tree.value.draft.value) tree.value.claimed fs
        (record { choice = choice; cause = cause })) }
{
    let held = &mut *tree;
    let draft = &mut *held.draft;
    let mut limits = Limits::wake(&draft.base.instance, draft.limits.take(alloc));
    held.walk.enter(&mut limits, choice);
    draft.limits = limits.rest();
    held.unshown += unshown_by(is_shown);
    Due::Node { tree }
}

/// A line `window` or `pair`. In form 2 the line `why` of the node comes next.
fn split_line(alloc: Global, mut tree: Box<TreeDraft>, choice: Choice) -> Result<Step, Reason>
    requires node { IsInTree tree.value }
    requires known { IsKnown tree.value.draft.value.base.instance choice }
    ensures { (fs : List Above) → IsAtNode tree.value fs → Tells
        (after_split (draft_of tree.value.draft.value) tree.value.claimed fs choice) result }
{
    if !has_split_room(&tree) {
        return Err(Reason::Count);
    }
    let draft = &mut *tree.draft;
    let form = draft.base.form;
    let limits = Limits::wake(&draft.base.instance, draft.limits.take(alloc));
    if !can_split(&limits, choice) {
        return Err(split_fault(choice));
    }
    draft.limits = limits.rest();
    match form {
        DossierForm::One => Ok(Step::More(first_child(alloc, tree, choice, false))),
        DossierForm::Two => Ok(Step::More(Due::Why { tree, choice })),
    }
}

/// The line `leaf bare`.
fn bare_line(alloc: Global, tree: Box<TreeDraft>) -> Result<Step, Reason>
    requires { IsInTree tree.value }
    ensures { (fs : List Above) → IsAtNode tree.value fs
        → Tells (after_bare (draft_of tree.value.draft.value) tree.value.claimed fs) result }
{
    if !has_leaf_room(&tree, false) {
        return Err(Reason::Count);
    }
    if tree.draft.bound > 0 {
        return Err(Reason::Bound);
    }
    Ok(Step::More(leave(alloc, tree, false)))
}

/// The line `leaf open` or `leaf closed`.
fn leaf_line(mut tree: Box<TreeDraft>, is_closed: bool) -> Result<Step, Reason>
    requires { IsInTree tree.value }
    ensures { (fs : List Above) → IsAtNode tree.value fs → Tells
        (after_leaf (draft_of tree.value.draft.value) tree.value.claimed fs is_closed) result }
{
    if !has_leaf_room(&tree, is_closed) {
        return Err(Reason::Count);
    }
    let held = &mut *tree;
    held.reader.begin();
    Ok(Step::More(Due::Leaf { tree, is_closed }))
}

/// A line of a node.
pub fn node_line(alloc: Global, tree: Box<TreeDraft>, words: LineWords<'_>) -> Result<Step, Reason>
    requires { IsAwaited (Due.Node tree) }
    ensures { IsStep (Due.Node tree) words.entry result }
{
    fault_is_refused();
    let instance = &tree.draft.base.instance;
    let teams = instance.teams() as u32;
    let tasks = instance.tasks() as u32;
    match read_node(words, teams, tasks)? {
        NodeLine::Window { task, cut } => split_line(alloc, tree, Choice::Window { task, cut }),
        NodeLine::Pair { team, task } => split_line(alloc, tree, Choice::Pair { team, task }),
        NodeLine::Bare => bare_line(alloc, tree),
        NodeLine::Open => leaf_line(tree, false),
        NodeLine::Closed => leaf_line(tree, true),
    }
}
