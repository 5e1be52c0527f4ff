// The run of a node's master over columns.
ghost use Rattle.std.specs.Prelude.{◌≡◌, ◌≤◌, ◌<◌, ◌++◌, ◌∷◌, [], ℕ, List, All, Contains, IfErr, IfOk, OnOk, length};
ghost use Rattle.crew_terms.specs.Limits.{Limits as NodeLimits, Route};
ghost use Rattle.route_terms.specs.Routes.{route_of};
ghost use Rattle.search_terms.specs.Search.{Extends, IsColumn};
ghost use Rattle.column_arena.specs.Columns.{column_of};
ghost use Rattle.frac_master.specs.Adding.{HaveSameDuals};
ghost use Rattle.master_run.specs.State.{routes_of};
ghost use Rattle.master_run.specs.Along.{Halts, HaltsAfter, IsAlong, IsAtOptimum, IsOver};

use crate::halt::Halt;
use column_arena::{Columns, legal_in};
use crew_terms::Visit;
use frac_master::{Added, Master, Solved};
use master_laws::places_are;
use node_limits::Limits;
use search_terms::Place;
use std::alloc::Global;
use std::marker::Model;

/// The run of a node's master over columns, at the optimum over those that have entered.
///
/// In contracts: the master, the numbers of the columns that entered, how many pivots the run may make, and how many it has
/// left.
#[derive(Drop)]
pub struct Run {
    pub(crate) master: Master,
    ids: Vec<usize>,
    pivots: u32,
    left: u32,
}

impl Model for Run {
    ghost use Rattle.master_run.specs.State.{RunState};

    ghost Value = { RunState };

    ghost use Rattle.master_run.specs.Kept.{kept};

    ghost view = { kept };
}

impl Run {
    // Pivots to the optimum.
    fn pivot(&mut self) -> Result<(), Halt>
        ensures ids { self.new.ids ≡ self.old.ids }
        ensures pivots { self.new.pivots ≡ self.old.pivots }
        ensures left { self.new.left ≤ self.old.left }
        ensures optimum { (n : NodeLimits) (columns : List Route) → IsAlong n columns self.old
            → OnOk result (IsAtOptimum n columns self.new) }
        ensures halts { (n : NodeLimits) (columns : List Route) → IsAlong n columns self.old →
            IfErr result (HaltsAfter n self.old.pivots (routes_of columns self.old.ids)) }
        ensures same { OnOk result (self.new.left ≡ self.old.left
            → self.new.master.rows ≡ self.old.master.rows) }
    {
        let solved = self.master.solve(self.left);
        match solved {
            Solved::Optimal => {
                self.left = self.left.saturating_sub(self.master.made());
                Ok(())
            }
            Solved::Overflow(fault) => Err(Halt::Overflow(fault)),
            Solved::Spent => Err(Halt::Spent),
        }
    }

    // Enters a column and pivots to the optimum.
    fn take<C: Columns>(&mut self, columns: &C, id: usize) -> Result<(), Halt>
        requires known { id < length (C.columns columns.now) }
        requires rising { All (λ other. other < id) self.old.master.columns }
        requires team { Contains self.old.master.places
            (Place.Unused (column_of (C.columns columns.now) id).team) }
        ensures ids { OnOk result (self.new.ids ≡ self.old.ids ++ id ∷ []) }
        ensures pivots { self.new.pivots ≡ self.old.pivots }
        ensures left { self.new.left ≤ self.old.left }
        ensures optimum { (n : NodeLimits) → IsAtOptimum n (C.columns columns.now) self.old →
            OnOk result (IsAtOptimum n (C.columns columns.now) self.new) }
        ensures halts { (n : NodeLimits) → IsAtOptimum n (C.columns columns.now) self.old →
            IfErr result (HaltsAfter n self.old.pivots
            (routes_of (C.columns columns.now) (self.old.ids ++ id ∷ []))) }
        ensures duals { (n : NodeLimits) → IsAtOptimum n (C.columns columns.now) self.old →
            OnOk result (self.new.left ≡ self.old.left
            → HaveSameDuals self.old.master self.new.master) }
    {
        let added = self
            .master
            .add_column(id, columns.team(id), columns.visits(id))?;
        self.ids.push(id)?;
        match added {
            Added::Done => self.pivot(),
            Added::Overflow(fault) => Err(Halt::Overflow(fault)),
        }
    }

    // The run over no columns.
    fn open(alloc: Global, limits: &Limits<'_>, pivots: u32) -> Result<Run, Halt>
        ensures ids { IfOk result (λ r. r.ids ≡ []) }
        ensures pivots { IfOk result (λ r. r.pivots ≡ pivots) }
        ensures optimum { (columns : List Route) → IfOk result
            (IsAtOptimum limits.now.limits columns) }
        ensures halts { IfErr result (HaltsAfter limits.now.limits pivots []) }
    {
        let mut run = Run {
            master: Master::open(alloc, limits)?,
            ids: Vec::new(alloc),
            pivots,
            left: pivots,
        };
        run.pivot()?;
        Ok(run)
    }

    /// The run over the columns that are routes in the node, by rising number, with so many pivots.
    pub fn over<C: Columns>(
        alloc: Global,
        limits: &Limits<'_>,
        columns: &C,
        pivots: u32,
    ) -> Result<Run, Halt>
        ensures over { IfOk result (IsOver limits.now.limits (C.columns columns.now)) }
        ensures pivots { IfOk result (λ r. r.pivots ≡ pivots) }
        ensures halts { IfErr result (Halts limits.now.limits pivots (C.columns columns.now)) }
    {
        places_are();
        let mut legal = Vec::new(alloc);
        legal_in(limits, columns, &mut legal)?;
        let mut run = Run::open(alloc, limits, pivots)?;
        for id in &legal {
            run.take(columns, *id)?;
        }
        Ok(run)
    }

    /// Adds a route of the node to the columns. Where no column equals it, it enters as the last one, and the run goes on
    /// to the optimum. The columns may have grown where memory runs out.
    pub fn enter<C: Columns>(
        &mut self,
        limits: &Limits<'_>,
        columns: &mut C,
        team: u32,
        visits: &[Visit],
    ) -> Result<(), Halt>
        requires over { IsOver limits.now.limits (C.columns columns.old) self.old }
        requires route { IsColumn limits.now.limits (route_of team visits.now) }
        ensures over { OnOk result (IsOver limits.now.limits (C.columns columns.new) self.new) }
        ensures held { OnOk result (Contains (C.columns columns.new) (route_of team visits.now)) }
        ensures pivots { self.new.pivots ≡ self.old.pivots }
        ensures left { self.new.left ≤ self.old.left }
        ensures duals { OnOk result (self.new.left ≡ self.old.left
            → HaveSameDuals self.old.master self.new.master) }
        ensures halts { IfErr result (Halts limits.now.limits self.old.pivots
            (C.columns columns.new)) }
        ensures extends { Extends limits.now.limits (C.columns columns.old)
            (C.columns columns.new) }
    {
        places_are();
        // No instance has more teams and tasks than columns can name.
        let _ = limits.instance();
        let held = columns.len();
        let id = columns.add(team, visits)?;
        if id < held {
            return Ok(());
        }
        self.take(columns, id)
    }

    /// How many pivots are left.
    pub fn left(&self) -> u32
        ensures { result ≡ self.now.left }
    {
        self.left
    }

    /// The numbers of the columns that entered, rising.
    pub fn ids(&self) -> &[usize]
        ensures { result.now ≡ self.now.ids }
    {
        &self.ids
    }
}
