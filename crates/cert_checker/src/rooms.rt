// The room of a tree, which is kept from one dossier to the next.
ghost use Rattle.std.specs.Prelude.{◌≡◌, ◌↔◌, length, IfOk, IfSome, IsTrue};
ghost use Rattle.dossier_terms.specs.Dossier.{Dossier};
ghost use Rattle.cert_checker.specs.Due.{IsEndOf, IsRoot, IsTreeOf};
ghost use Rattle.cert_checker.specs.Rooms.{HaveSameRoots, HaveSameWindows, IsAlike, IsFor, IsUnfrozen};

use crate::due::{BegunDossier, EndedDossier, NO_LOOSE, TreeDraft};
use crew_instance::{Instance, unassigned};
use crew_terms::TreeCounts;
use leaf_check::LeafReader;
use node_limits::{Held, Limits};
use share_check::ShareSums;
use std::alloc::{AllocError, Global};
use std::marker::Model;
use tree_walk::Walk;

/// The room of a tree that is over: what has read its leaves, the sums of shares, and the limits of its root.
///
/// In contracts: the instance that they are for.
#[derive(Drop)]
pub struct TreeRoom {
    tree: Box<TreeDraft>,
    // Whether the limits are still there.
    has_limits: bool,
}

impl Model for TreeRoom {
    ghost use Rattle.crew_terms.specs.Instance.{Instance as Planned};

    ghost Value = { Planned };

    ghost use Rattle.cert_checker.specs.Due.{IsTreeOver};

    ghost view = { λ a. a.tree.value.draft.value.base.instance };

    ghost invariant = { λ a. IsTreeOver a.tree.value a.has_limits };
}

/// New room for a tree.
#[derive(Drop)]
pub struct NewRoom {
    reader: LeafReader,
    sums: ShareSums,
}

/// Room for a tree: that of a tree that is over, or new room.
#[derive(Drop)]
pub enum Room {
    Kept(TreeRoom),
    New(Box<NewRoom>),
}

/// Whether two instances have as many tasks, each with the same window.
fn have_same_windows(a: &Instance, b: &Instance) -> bool
    ensures { IsTrue result ↔ HaveSameWindows a.now b.now }
{
    if a.tasks() != b.tasks() {
        return false;
    }
    for j in 0..a.tasks() as u32 {
        let (one, other) = (a.task(j), b.task(j));
        if one.earliest != other.earliest || one.latest != other.latest {
            return false;
        }
    }
    true
}

/// Whether no job is frozen.
fn is_unfrozen(instance: &Instance) -> bool
    ensures { IsTrue result ↔ IsUnfrozen instance.now }
{
    for j in 0..instance.tasks() as u32 {
        if instance.frozen(j).is_some() {
            return false;
        }
    }
    true
}

impl TreeRoom {
    /// The room of the dossier's tree.
    pub fn of(ended: EndedDossier) -> TreeRoom
        requires { (d : Dossier) × IsEndOf ended d }
        ensures { result ≡ ended.tree.value.draft.value.base.instance }
    {
        let EndedDossier { tree, .. } = ended;
        TreeRoom {
            tree,
            has_limits: true,
        }
    }

    /// Whether it is room for a tree over this instance.
    fn fits(&self, instance: &Instance) -> bool
        ensures { IsTrue result ↔ IsAlike self.now instance.now }
    {
        let own = &self.tree.draft.base.instance;
        own.teams() == instance.teams() && have_same_windows(own, instance)
    }

    /// Whether the limits of the root of its instance are those of this one, where no job is frozen.
    fn has_root_of(&self, instance: &Instance) -> bool
        ensures { IsTrue result ↔ HaveSameRoots self.now instance.now }
    {
        let own = &self.tree.draft.base.instance;
        self.fits(instance) && is_unfrozen(own) && is_unfrozen(instance)
    }

    /// The limits of the root of this instance, at rest, if it has them. They are handed out once.
    fn take_root(&mut self, alloc: Global, instance: &Instance) -> Option<Held>
        ensures same { self.new ≡ self.old }
        ensures root { IfSome result (IsRoot instance.now) }
    {
        if !self.has_limits || !self.has_root_of(instance) {
            return None;
        }
        self.has_limits = false;
        let tree = &mut *self.tree;
        let draft = &mut *tree.draft;
        Some(draft.limits.take(alloc))
    }

    /// Another tree in its room.
    fn hold(self, draft: Box<BegunDossier>, claimed: TreeCounts, walk: Walk) -> Box<TreeDraft>
        requires { IsAlike self draft.value.base.instance }
        ensures { IsTreeOf draft claimed walk result.value }
    {
        let TreeRoom { mut tree, .. } = self;
        let held = &mut *tree;
        held.unassigned = unassigned(&draft.plan);
        held.draft = draft;
        held.claimed = claimed;
        held.walk = walk;
        held.unshown = 0;
        held.reader.begin();
        tree
    }
}

/// A tree in new room.
// Few dossiers need it; the others are not to pay for the room of its numbers on the stack.
#[inline(never)]
fn first_tree(
    alloc: Global,
    room: Box<NewRoom>,
    draft: Box<BegunDossier>,
    claimed: TreeCounts,
    walk: Walk,
) -> Result<Box<TreeDraft>, AllocError>
    requires { IsFor draft.value.base.instance (Room.New room) }
    ensures { IfOk result (λ tree. IsTreeOf draft claimed walk tree.value) }
{
    let NewRoom { reader, sums } = Box::into_inner(room);
    let unassigned = unassigned(&draft.plan);
    let tree = TreeDraft {
        draft,
        claimed,
        unassigned,
        walk,
        unshown: 0,
        reader,
        loose: NO_LOOSE,
        sums,
    };
    Ok(Box::new(alloc, tree)?)
}

impl Room {
    /// A tree in this room.
    pub fn hold(
        self,
        alloc: Global,
        draft: Box<BegunDossier>,
        claimed: TreeCounts,
        walk: Walk,
    ) -> Result<Box<TreeDraft>, AllocError>
        requires { IsFor draft.value.base.instance self }
        ensures { IfOk result (λ tree. IsTreeOf draft claimed walk tree.value) }
    {
        match self {
            Room::Kept(room) => Ok(room.hold(draft, claimed, walk)),
            Room::New(room) => first_tree(alloc, room, draft, claimed, walk),
        }
    }
}

/// New room for a tree over the instance of these limits.
#[inline(never)]
fn new_room(alloc: Global, limits: &Limits<'_>) -> Result<Box<NewRoom>, AllocError>
    ensures { IfOk result (λ room. IsFor limits.now.limits.instance (Room.New room)) }
{
    let reader = LeafReader::open(alloc, limits)?;
    let sums = ShareSums::open(alloc, limits)?;
    Ok(Box::new(alloc, NewRoom { reader, sums })?)
}

/// Room for a tree over the instance of these limits: what is kept, where it fits, or else new room.
pub fn room_for(
    alloc: Global,
    kept: Option<TreeRoom>,
    limits: &Limits<'_>,
) -> Result<Room, AllocError>
    ensures { IfOk result (IsFor limits.now.limits.instance) }
{
    if let Some(room) = kept {
        if room.fits(limits.instance()) {
            return Ok(Room::Kept(room));
        }
    }
    Ok(Room::New(new_room(alloc, limits)?))
}

/// The limits of the root of an instance, at rest: those that are kept, where they are the same, or new ones.
pub fn root_for(
    alloc: Global,
    kept: &mut Option<TreeRoom>,
    instance: &Instance,
) -> Result<Held, AllocError>
    ensures { IfOk result (IsRoot instance.now) }
{
    if let Some(room) = kept.as_mut() {
        if let Some(limits) = room.take_root(alloc, instance) {
            return Ok(limits);
        }
    }
    let limits = Limits::root(alloc, instance)?;
    Ok(limits.rest())
}
