// A dossier, written from its parts.
ghost use Rattle.std.specs.List.{flat_map};
ghost use Rattle.crew_terms.specs.Words.{line_text};
ghost use Rattle.crew_io.specs.Puts.{Puts};
ghost use Rattle.dossier_terms.specs.Dossier.{Dossier};
ghost use Rattle.dossier_terms.specs.Lines.{head_lines, text_of};
ghost use Rattle.dossier_terms.specs.declared.DossierForm.TheVariants.{Two};
ghost use Rattle.cert_write.specs.Desks.{IsReady};
ghost use Rattle.cert_write.specs.Dossiers.{IsDossierOf, WritesDossier};
ghost use Rattle.cert_write.specs.Given.{AreWritable, given};

use crate::causes::Cause;
use crate::desk::Desk;
use crate::faults::PutFault;
use crate::instance::write_instance;
use crate::laws::parts_have_one_dossier;
use crate::pool::put_pool;
use crate::tree::put_tree;
use branch_tree::{Tree, one_tree};
use column_arena::Columns;
use crew_instance::{Instance, Plan};
use crew_io::sink::{Sink, WriteFault};
use dossier_out::{put_frozen, put_plan};
use line_out::{Part, put_line};
use std::alloc::Global;

/// What a dossier is written from.
#[derive(Drop)]
pub struct Parts<'a, C: Columns> {
    pub instance: &'a Instance,
    /// The node budget.
    pub nodes: u32,
    /// How many of the columns, the first ones, come from the round before.
    pub kept: usize,
    pub columns: &'a C,
    pub plan: &'a Plan,
    /// The number that the tree proves.
    pub bound: u32,
    pub tree: &'a Tree,
    /// Why each split was made, in the order of the nodes.
    pub causes: &'a [Cause<'a>],
}

/// The first line, and the lines of the instance with its frozen jobs.
fn put_head<K: Sink>(out: &mut K, instance: &Instance, nodes: u32) -> Result<(), WriteFault>
    ensures { Puts K.Sink (flat_map line_text (head_lines Two instance.now nodes)) out.old
        out.new result }
{
    put_line(
        out,
        &[
            Part::Word(b"crew"),
            Part::Word(b"dossier"),
            Part::Word(b"2"),
        ],
    )?;
    write_instance(out, instance, nodes)?;
    put_frozen(out, instance)
}

/// The lines of the dossier. It takes no memory.
fn put_dossier<K: Sink, C: Columns>(
    out: &mut K,
    parts: &Parts<'_, C>,
    desk: &mut Desk<'_>,
) -> Result<(), WriteFault>
    requires dossier { (d : Dossier) × IsDossierOf (given C.columns parts.now) d }
    requires valid { AreWritable (given C.columns parts.now) }
    requires ready { IsReady parts.now.instance.now parts.now.tree.now desk.old }
    ensures { (d : Dossier) → IsDossierOf (given C.columns parts.now) d
        → Puts K.Sink (text_of d) out.old out.new result }
{
    one_tree();
    put_head(out, parts.instance, parts.nodes)?;
    put_pool(out, parts.columns, parts.kept)?;
    put_plan(out, parts.plan, parts.bound)?;
    put_tree(
        out,
        &mut desk.limits,
        &mut desk.walk,
        &mut desk.room,
        parts.instance,
        parts.tree,
        parts.causes,
    )
}

/// Writes the dossier of these parts in form 2, with the worths and the potentials that pricing gives for each leaf that
/// is not bare. All memory is taken before anything is written. After a write fault, a front of the dossier was written.
pub fn write_dossier<K: Sink, C: Columns>(
    alloc: Global,
    sink: &mut K,
    parts: &Parts<'_, C>,
) -> Result<(), PutFault>
    requires { AreWritable (given C.columns parts.now) }
    ensures { WritesDossier K.Sink (given C.columns parts.now) sink.old sink.new result }
{
    parts_have_one_dossier();
    // It is known from here on that the instance keeps its own limits.
    let _ = parts.instance.tasks();
    let mut desk = Desk::open(alloc, parts.instance, parts.tree)?;
    match put_dossier(sink, parts, &mut desk) {
        Ok(()) => Ok(()),
        Err(WriteFault) => Err(PutFault::WriteFault),
    }
}
