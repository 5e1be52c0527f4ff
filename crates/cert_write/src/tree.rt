// The lines of a tree, node by node.
ghost use Rattle.std.specs.Prelude.{◌≡◌, ◌≤◌, ◌∷◌, List, drop, map, length, IfOk};
ghost use Rattle.std.specs.List.{flat_map};
ghost use Rattle.crew_terms.specs.Limits.{Limits as NodeLimits, root_limits};
ghost use Rattle.crew_terms.specs.Words.{line_text};
ghost use Rattle.crew_io.specs.Puts.{Puts};
ghost use Rattle.branch_tree.specs.Trees.{BranchTree, counts_of, preorder};
ghost use Rattle.branch_tree.specs.declared.tree.Node.{Node as TreeNode};
ghost use Rattle.dossier_terms.specs.Dossier.{Written};
ghost use Rattle.dossier_terms.specs.Lines.{cause_lines, choice_line, node_lines, tree_line, tree_lines};
ghost use Rattle.dossier_terms.specs.declared.DossierForm.TheVariants.{Two};
ghost use Rattle.cert_write.specs.Causes.{cause_of};
ghost use Rattle.cert_write.specs.Desks.{AreReady};
ghost use Rattle.cert_write.specs.Tables.{IsRoomOf};
ghost use Rattle.cert_write.specs.Walks.{GoesOn, IsDue, Place, Stands, is_closed as is_closed_state};

use crate::causes::{Cause, put_cause};
use crate::leaf::put_claim;
use crate::tables::Room;
use branch_tree::{LeafState, Node, Tree, one_tree};
use crew_instance::Instance;
use crew_io::sink::{Sink, WriteFault};
use crew_terms::Choice;
use dossier_out::number;
use line_out::{Part, put_line};
use node_limits::Limits;
use tree_walk::Walk;

/// The line of how a node is split.
fn put_choice<K: Sink>(out: &mut K, choice: Choice) -> Result<(), WriteFault>
    ensures { Puts K.Sink (line_text (choice_line choice)) out.old out.new result }
{
    match choice {
        Choice::Window { task, cut } => {
            put_line(out, &[Part::Word(b"window"), number(task), number(cut)])
        }
        Choice::Pair { team, task } => {
            put_line(out, &[Part::Word(b"pair"), number(team), number(task)])
        }
    }
}

/// The lines of a split.
fn put_split<K: Sink>(out: &mut K, choice: Choice, cause: &Cause<'_>) -> Result<(), WriteFault>
    ensures { Puts K.Sink (flat_map line_text
        (choice_line choice ∷ cause_lines (cause_of cause.now))) out.old out.new result }
{
    put_choice(out, choice)?;
    put_cause(out, cause)
}

fn is_closed(state: LeafState) -> bool
    ensures { result ≡ is_closed_state state }
{
    match state {
        LeafState::Bare | LeafState::Open => false,
        LeafState::Closed => true,
    }
}

/// The lines of the node that is due, and on to the next node. It answers how many of the causes that are to come were
/// written.
fn put_node<K: Sink>(
    out: &mut K,
    limits: &mut Limits<'_>,
    walk: &mut Walk,
    room: &mut Room,
    node: &Node,
    causes: &[Cause<'_>],
) -> Result<usize, WriteFault>
    requires due { (root : NodeLimits) × (whole : Written) × (nodes : List TreeNode)
        × (place : Place) ×
        Stands root whole (node.now ∷ nodes) (map cause_of causes.now) limits.old walk.old place }
    requires room { IsRoomOf limits.old.limits.instance room.old }
    ensures goes { (root : NodeLimits) (whole : Written) (nodes : List TreeNode) (place : Place) →
        Stands root whole (node.now ∷ nodes) (map cause_of causes.now) limits.old walk.old place →
        GoesOn K.Sink root whole nodes
        (map cause_of causes.now) place out.old out.new limits.new walk.new result }
    ensures used { IfOk result (λ n. n ≤ length causes.now) }
    ensures instance { limits.new.limits.instance ≡ limits.old.limits.instance }
    ensures room { IsRoomOf limits.new.limits.instance room.new }
{
    match node {
        Node::Split(choice) => {
            put_split(out, *choice, &causes[0])?;
            walk.enter(limits, *choice);
            Ok(1)
        }
        Node::Leaf { state, prices } => {
            put_claim(out, limits, *state, prices, room)?;
            walk.leave(limits, is_closed(*state));
            Ok(0)
        }
    }
}

/// The causes from this one on.
fn causes_from<'a, 'b>(causes: &'a [Cause<'b>], n: usize) -> &'a [Cause<'b>]
    requires { n ≤ length causes.now }
    ensures { result.now ≡ drop n causes.now }
{
    &causes[n..]
}

/// The lines of all nodes.
fn put_nodes<K: Sink>(
    out: &mut K,
    limits: &mut Limits<'_>,
    walk: &mut Walk,
    room: &mut Room,
    instance: &Instance,
    tree: &Tree,
    causes: &[Cause<'_>],
) -> Result<(), WriteFault>
    requires due { (given : BranchTree) × (written : Written)
        × IsDue (root_limits instance.now) tree.now (map cause_of causes.now) given written }
    requires ready { AreReady instance.now tree.now limits.old walk.old room.old }
    ensures { (given : BranchTree) (written : Written)
        → IsDue (root_limits instance.now) tree.now (map cause_of causes.now) given written →
        Puts K.Sink (flat_map line_text (node_lines Two (root_limits instance.now) written)) out.old
        out.new result }
{
    one_tree();
    let _few = tree.splits();
    let mut written = 0;
    for at in 0..tree.len() {
        let left = causes_from(causes, written);
        let used = put_node(out, limits, walk, room, tree.node(at), left)?;
        written += used;
    }
    Ok(())
}

/// The line of the numbers of a tree.
fn put_counts<K: Sink>(out: &mut K, tree: &Tree) -> Result<(), WriteFault>
    ensures { (given : BranchTree) → tree.now ≡ preorder given
        → Puts K.Sink (line_text (tree_line (counts_of given))) out.old out.new result }
{
    one_tree();
    put_line(
        out,
        &[
            Part::Word(b"tree"),
            number(tree.splits()),
            number(tree.closed()),
            number(tree.left_open()),
            number(tree.depth()),
        ],
    )
}

/// The lines of a tree, and the last line of a dossier.
pub(crate) fn put_tree<K: Sink>(
    out: &mut K,
    limits: &mut Limits<'_>,
    walk: &mut Walk,
    room: &mut Room,
    instance: &Instance,
    tree: &Tree,
    causes: &[Cause<'_>],
) -> Result<(), WriteFault>
    requires due { (given : BranchTree) × (written : Written)
        × IsDue (root_limits instance.now) tree.now (map cause_of causes.now) given written }
    requires ready { AreReady instance.now tree.now limits.old walk.old room.old }
    ensures { (given : BranchTree) (written : Written)
        → IsDue (root_limits instance.now) tree.now (map cause_of causes.now) given written →
        Puts K.Sink (flat_map line_text (tree_lines Two instance.now written)) out.old
        out.new result }
{
    put_counts(out, tree)?;
    put_nodes(out, limits, walk, room, instance, tree, causes)?;
    put_line(out, &[Part::Word(b"end")])
}
