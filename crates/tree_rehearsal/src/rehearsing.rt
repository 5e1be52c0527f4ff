// A rehearsal under way: depth first, it closes nodes by prices or splits them, and jumps back over splits that were not needed.
ghost use Rattle.std.specs.Prelude.{All, IfOk};
ghost use Rattle.potentials.specs.Prices.{ArePricesOf};
ghost use Rattle.split_uses.specs.Permitted.{IsPermittedSpan};

use crate::choosing::{choice_in, favour, favour_tree};
use crate::effort::Effort;
use crate::jumps::{Trial, try_tree};
use crate::places::limits_at;
use crate::pool::Pool;
use crate::rest::RestPrices;
use crate::scenes::{Scene, Scenes};
use crate::solved::{Handed, Solved, solve};
use crew_instance::Instance;
use crew_terms::{Choice, Side};
use node_limits::{Branch, Limits};
use potentials::proves;
use split_uses::Favours;
use std::alloc::{AllocError, Global};

// By so much more counts a split of which both parts were needed, in 1/256.
const NEEDED: u32 = 128;

// After so many programs it begins anew for the first time.
const FIRST_STRETCH: u32 = 60;

/// A split on the way to the node that is due: on which side of it the way goes on, the tree of its first part where that is
/// closed, what its parts are handed, and where it stands in the guide.
#[derive(Drop)]
struct Frame {
    choice: Choice,
    side: Side,
    first: usize,
    handed: Handed,
    guide: Option<usize>,
}

/// A tree that is followed where it can be.
#[derive(Drop)]
pub(crate) struct Guide {
    pub(crate) scenes: Scenes,
    pub(crate) root: usize,
}

/// How a step went on: the tree of the root is closed, there is more to do, or nothing more can be done.
#[derive(Clone, Copy)]
enum Went {
    Closed(usize),
    On,
    Nowhere,
}

/// A rehearsal that aims at so many unassigned tasks.
#[derive(Drop)]
pub(crate) struct Rehearsal<'a> {
    alloc: Global,
    instance: &'a Instance,
    root: &'a Handed,
    guide: Option<&'a Guide>,
    goal: u32,
    // What is left of it.
    effort: Effort,
    favours: Favours,
    frames: Vec<Frame>,
    scenes: Scenes,
}

impl<'a> Rehearsal<'a> {
    /// A rehearsal of the instance's tree, whose root is handed so much; AllocError where there is no memory.
    pub(crate) fn new(
        alloc: Global,
        instance: &'a Instance,
        root: &'a Handed,
        guide: Option<&'a Guide>,
        goal: u32,
        effort: Effort,
    ) -> Result<Rehearsal<'a>, AllocError> {
        Ok(Rehearsal {
            alloc,
            instance,
            root,
            guide,
            goal,
            effort,
            favours: Favours::none(alloc, instance.tasks())?,
            frames: Vec::new(alloc),
            scenes: Scenes::none(alloc),
        })
    }

    // The branches to the node that is due.
    fn branches(&self) -> Result<Vec<Branch>, AllocError> {
        let mut branches = Vec::new(self.alloc);
        for frame in &self.frames {
            branches.push(Branch {
                choice: frame.choice,
                side: frame.side,
            })?;
        }
        Ok(branches)
    }

    // Where the guide stands at the node that is due.
    fn guide_at(&self) -> Option<usize> {
        let guide = self.guide?;
        match self.frames.last() {
            Some(frame) => guide.scenes.child(frame.guide?, frame.side),
            None => Some(guide.root),
        }
    }

    // The choice of the guide where it stands.
    fn wanted(&self, at: Option<usize>) -> Option<Choice> {
        self.guide?.scenes.choice(at?)
    }

    // Solves the program of the node that is due.
    fn solve(&mut self, limits: &Limits<'_>, pool: &mut Pool) -> Result<Solved, AllocError>
        ensures prices { IfOk result (λ s. ArePricesOf limits.now.limits s.best.prices) }
        ensures spans { IfOk result (λ s. All (IsPermittedSpan limits.now.limits) s.spans.items) }
    {
        self.effort.programs = self.effort.programs.saturating_sub(1);
        match self.frames.last() {
            Some(Frame { handed, .. }) => {
                solve(self.alloc, limits, pool, handed, self.goal, self.effort)
            }
            None => solve(self.alloc, limits, pool, self.root, self.goal, self.effort),
        }
    }

    // Whether the tree does without the split below which it stands, the branches above which are these.
    fn does(&mut self, node: usize, branches: Vec<Branch>) -> Result<bool, AllocError> {
        let Trial { does, pricings } = try_tree(
            self.alloc,
            self.instance,
            &self.scenes,
            node,
            branches,
            self.goal,
        )?;
        self.effort.pricings = self.effort.pricings.saturating_sub(pricings);
        Ok(does)
    }

    // Closes a part of the split by a tree. Gives the tree that closes the split's node, if that is closed.
    fn close(&mut self, frame: Frame, node: usize) -> Result<Option<usize>, AllocError> {
        let Frame {
            choice,
            side,
            first,
            handed,
            guide,
        } = frame;
        match side {
            Side::First => {
                let branches = self.branches()?;
                if self.does(node, branches)? {
                    favour_tree(self.alloc, &mut self.favours, &self.scenes, node)?;
                    return Ok(Some(node));
                }
                favour(&mut self.favours, choice, NEEDED);
                self.frames.push(Frame {
                    choice,
                    side: Side::Second,
                    first: node,
                    handed,
                    guide,
                })?;
                Ok(None)
            }
            Side::Second => {
                let split = Scene::Split {
                    choice,
                    first,
                    second: node,
                };
                Ok(Some(self.scenes.add(split)?))
            }
        }
    }

    // Closes the node that is due by a tree, and those above it as far as that goes.
    fn fold(&mut self, node: usize) -> Result<Went, AllocError> {
        let mut node = node;
        for _ in 0..self.frames.len() {
            let Some(frame) = self.frames.pop() else {
                break;
            };
            let Some(above) = self.close(frame, node)? else {
                return Ok(Went::On);
            };
            node = above;
        }
        Ok(Went::Closed(node))
    }

    // Splits the node that is due.
    fn split(&mut self, limits: &Limits<'_>, solved: Solved) -> Result<Went, AllocError>
        requires prices { ArePricesOf limits.now.limits solved.best.prices }
        requires spans { All (IsPermittedSpan limits.now.limits) solved.spans.items }
    {
        let at = self.guide_at();
        let wanted = self.wanted(at);
        let chosen = choice_in(self.alloc, limits, &solved, wanted, &self.favours)?;
        let Some(choice) = chosen else {
            return Ok(Went::Nowhere);
        };
        let Solved {
            best,
            routes,
            basis,
            ..
        } = solved;
        let prices = RestPrices::of(self.alloc, limits, &best.prices)?;
        let handed = Handed {
            prices,
            routes,
            basis,
        };
        self.frames.push(Frame {
            choice,
            side: Side::First,
            first: 0,
            handed,
            guide: if wanted == Some(choice) { at } else { None },
        })?;
        Ok(Went::On)
    }

    // Takes the node that is due.
    fn step(&mut self, pool: &mut Pool) -> Result<Went, AllocError> {
        let branches = self.branches()?;
        let Some(limits) = limits_at(self.alloc, self.instance, &branches)? else {
            return Ok(Went::Nowhere);
        };
        let solved = self.solve(&limits, pool)?;
        if !proves(solved.best.bound, self.goal) {
            return self.split(&limits, solved);
        }
        let prices = RestPrices::of(self.alloc, &limits, &solved.best.prices)?;
        let leaf = self.scenes.add(Scene::Leaf(prices))?;
        self.fold(leaf)
    }

    // Goes on for so many programs at most, while pricings are left.
    fn run(&mut self, pool: &mut Pool, stretch: u32) -> Result<Went, AllocError> {
        for _ in 0..stretch {
            if self.effort.programs == 0 || self.effort.pricings == 0 {
                return Ok(Went::Nowhere);
            }
            match self.step(pool)? {
                Went::On => {}
                went => return Ok(went),
            }
        }
        Ok(Went::On)
    }

    // Begins anew; of what it has learned half stays.
    fn restart(&mut self) {
        self.favours.halve();
        self.frames.clear();
        self.scenes = Scenes::none(self.alloc);
    }

    /// Rehearses until the root is closed: the number of its tree, by which the nodes are to be read; None where the effort
    /// does not suffice. After so many programs it begins anew, and each time a quarter later.
    pub(crate) fn rehearse(&mut self, pool: &mut Pool) -> Result<Option<usize>, AllocError> {
        let mut stretch = FIRST_STRETCH;
        for _ in 0..self.effort.programs {
            match self.run(pool, stretch)? {
                Went::Closed(root) => return Ok(Some(root)),
                Went::Nowhere => return Ok(None),
                Went::On => self.restart(),
            }
            stretch = stretch.saturating_add(stretch / 4);
        }
        Ok(None)
    }

    /// The nodes, and what is left of the effort.
    pub(crate) fn into_parts(self) -> (Scenes, Effort) {
        (self.scenes, self.effort)
    }
}
