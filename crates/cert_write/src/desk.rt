// What a dossier's tree is written with.
ghost use Rattle.std.specs.Prelude.{IfOk};
ghost use Rattle.cert_write.specs.Desks.{IsReady};

use crate::tables::Room;
use branch_tree::Tree;
use crew_instance::Instance;
use node_limits::Limits;
use std::alloc::{AllocError, Global};
use tree_walk::Walk;

/// The limits of the node that is due, the way to it, and room for its prices and for pricing: all memory that writing takes.
#[derive(Drop)]
pub(crate) struct Desk<'i> {
    pub(crate) limits: Limits<'i>,
    pub(crate) walk: Walk,
    pub(crate) room: Room,
}

impl<'i> Desk<'i> {
    /// A desk at the root, with room for the splits of the tree.
    pub(crate) fn open(
        alloc: Global,
        instance: &'i Instance,
        tree: &Tree,
    ) -> Result<Desk<'i>, AllocError>
        ensures { IfOk result (IsReady instance.now tree.now) }
    {
        let depth = tree.depth() as usize;
        let mut limits = Limits::root(alloc, instance)?;
        let room = Room::reserve(alloc, &limits)?;
        limits.reserve(depth)?;
        let walk = Walk::open(alloc, depth)?;
        Ok(Desk { limits, walk, room })
    }
}
