// The lines of a node of a tree: each is found by its first word.
ghost use Rattle.std.specs.Prelude.{ℕ, codes};
ghost use Rattle.dossier_terms.specs.Rules.{Begins};
ghost use Rattle.cert_format.specs.Typed.{ReadsAs, node_kind};

use crate::kinds::Expect;
use crate::typed::NodeLine;
use field_table::{LineWords, Schema, Words, fields};
use line_in::LineFault;
use line_in::ranges::MINUTE;
use line_in::shape::has_shape;

/// The first words of the lines of a node.
const NODES: Schema = Schema {
    keys: &["window", "pair", "leaf"],
};

/// The second words of the lines of a leaf.
const LEAVES: Schema = Schema {
    keys: &["bare", "open", "closed"],
};

fn read_window(words: LineWords<'_>, tasks: u32) -> Result<NodeLine, LineFault>
    requires { Begins (codes "window") words }
    ensures { (teams : ℕ) → ReadsAs (Expect.Node teams tasks) node_kind words.entry result }
{
    if !has_shape(&words, b"window", 2) {
        return Err(LineFault::Shape);
    }
    let last = tasks as i64 - 1;
    fields!(&words, task: Number(0, last), cut: MINUTE; else fault => LineFault::Number);
    Ok(NodeLine::Window {
        task: task as u32,
        cut: cut as u32,
    })
}

fn read_pair(words: LineWords<'_>, teams: u32, tasks: u32) -> Result<NodeLine, LineFault>
    requires { Begins (codes "pair") words }
    ensures { ReadsAs (Expect.Node teams tasks) node_kind words.entry result }
{
    if !has_shape(&words, b"pair", 2) {
        return Err(LineFault::Shape);
    }
    let last_team = teams as i64 - 1;
    let last_task = tasks as i64 - 1;
    fields!(
        &words, team: Number(0, last_team), task: Number(0, last_task);
        else fault => LineFault::Number
    );
    Ok(NodeLine::Pair {
        team: team as u32,
        task: task as u32,
    })
}

fn read_leaf(words: LineWords<'_>) -> Result<NodeLine, LineFault>
    requires { Begins (codes "leaf") words }
    ensures { (teams tasks : ℕ) → ReadsAs (Expect.Node teams tasks) node_kind words.entry result }
{
    if !has_shape(&words, b"leaf", 1) {
        return Err(LineFault::Shape);
    }
    let Some(leaf) = LEAVES.find(words.word(1)) else {
        return Err(LineFault::Shape);
    };
    match leaf {
        0 => Ok(NodeLine::Bare),
        1 => Ok(NodeLine::Open),
        _ => Ok(NodeLine::Closed),
    }
}

/// Reads a line of a node, `window`, `pair` or `leaf`, of an instance with so many teams and tasks, or
/// tells its first fault.
pub fn read_node(words: LineWords<'_>, teams: u32, tasks: u32) -> Result<NodeLine, LineFault>
    ensures { ReadsAs (Expect.Node teams tasks) node_kind words.entry result }
{
    if words.count() == 0 {
        return Err(LineFault::Shape);
    }
    let Some(node) = NODES.find(words.word(0)) else {
        return Err(LineFault::Shape);
    };
    match node {
        0 => read_window(words, tasks),
        1 => read_pair(words, teams, tasks),
        _ => read_leaf(words),
    }
}
