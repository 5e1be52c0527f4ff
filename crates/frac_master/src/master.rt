// The master of a node.

ghost use Rattle.std.specs.Prelude.{◌≡◌, ◌<◌, ◌+◌, ◌++◌, ◌∷◌, [], ◌*ℤ◌, ℕ, pos, true, List, None, length, unsigned_abs, All, Contains, IfOk, IfErr, MatchResult};
ghost use Rattle.crew_terms.specs.Leaf.{Prices};
ghost use Rattle.crew_terms.specs.Limits.{Limits as NodeLimits, Route};
ghost use Rattle.search_terms.specs.Duals.{AreDuals, IsUpTo};
ghost use Rattle.search_terms.specs.BasicChoice.{AreWholeParts};
ghost use Rattle.search_terms.specs.Opening.{cost, opens, places};
ghost use Rattle.search_terms.specs.Overflows.{OverflowAt};
ghost use Rattle.search_terms.specs.Pivot.{IsOptimal};
ghost use Rattle.search_terms.specs.Rows.{value_row};
ghost use Rattle.share_terms.specs.Shares.{IsRouteIn};
ghost use Rattle.share_terms.specs.declared.TheConstants.{BIG_M};
ghost use Rattle.frac_master.specs.Adding.{Adds, HaveSameDuals};
ghost use Rattle.frac_master.specs.Columns.{route_of};
ghost use Rattle.frac_master.specs.Follows.{AddsAlong, FollowsList, FollowsRun, SolvesAlong};
ghost use Rattle.frac_master.specs.Prices.{GivesDual, GivesValue, IsSumOf};
ghost use Rattle.frac_master.specs.Shares.{GivesShares, IsOptimalChoice, basic_choice, parts_at};
ghost use Rattle.frac_master.specs.Solving.{Solves};
ghost use Rattle.frac_master.specs.State.{opened};

use crate::basics::open_basics;
use crate::duals::{place_of, raised};
use crate::opening::value_row;
use crate::places::{places_of, teams_of};
use crate::routes::column_of;
use crate::running::run;
use crate::shares::{Share, denominator_of, push_open, push_shares};
use crate::solved::{Added, Solved};
use crew_num::Overflow;
use crew_terms::Visit;
use kept_rows::Tableau;
use master_laws::{
    duals_stand, entering_keeps_duals, openers_are_ones, openers_differ, openers_within,
    optimal_choice, optimal_prices, pivot_keeps_width, places_are, rows_are_lowest, run_keeps,
    shares_are_parts, some_row_bounds, strong_duality,
};
use node_limits::Limits;
use search_terms::{Place, RIGHT, VALUE};
use std::alloc::{AllocError, Global};
use std::marker::Model;

/// The master problem of a node in exact numbers: a row for each of its teams, tasks and required pairs, and the value's row,
/// each a row of whole numbers over its own basic entry. A route enters as a column.
///
/// In contracts: the places of its opening rows, the numbers of its columns, its rows, the overflow that ended it, and the
/// pivots of the last solve.
#[derive(Drop)]
pub struct Master {
    alloc: Global,
    places: Vec<Place>,
    tasks: usize,
    columns: Vec<usize>,
    table: Tableau,
    ended: Option<Overflow>,
    made: u32,
}

impl Model for Master {
    ghost use Rattle.frac_master.specs.State.{MasterState};

    ghost Value = { MasterState };

    ghost use Rattle.frac_master.specs.Kept.{kept, IsKept};

    ghost view = { kept };

    ghost invariant = { IsKept };
}

impl Master {
    /// The master of the node without routes.
    pub fn open(alloc: Global, limits: &Limits<'_>) -> Result<Master, AllocError>
        ensures opened { IfOk result (λ m. m ≡ opened limits.now.limits) }
        ensures list { IfOk result (FollowsList limits.now.limits [] 0) }
    {
        places_are();
        openers_are_ones();
        let places = places_of(alloc, limits)?;
        let teams = teams_of(alloc, limits)?;
        let basics = open_basics(alloc, &teams, &places)?;
        let value = value_row(alloc, &teams, &places, &basics.basics)?;
        let mut rows = basics.rows;
        rows.push(value)?;
        let mut basis = basics.basis;
        basis.push(VALUE)?;
        let table = Tableau::open(alloc, &rows, basis)?;
        Ok(Master {
            alloc,
            places,
            tasks: limits.instance().tasks(),
            columns: Vec::new(alloc),
            table,
            ended: None,
            made: 0,
        })
    }

    /// The pivots of the last solve.
    pub fn made(&self) -> u32
        ensures { result ≡ self.now.made }
    {
        self.made
    }

    /// Enters a route of a team of the node as the column of this number, which is greater than those of the columns held.
    /// Where memory is wanting, the master is as before. After an overflow it answers the same to every call.
    pub fn add_column(
        &mut self,
        column: usize,
        team: u32,
        visits: &[Visit],
    ) -> Result<Added, AllocError>
        requires team { Contains self.old.places (Place.Unused team) }
        requires rising { All (λ id. id < column) self.old.columns }
        ensures adds { MatchResult result (λ a. Adds self.old column
            (route_of team visits.now) a self.new) (λ _. self.new ≡ self.old) }

        // Along a run of the node.
        ensures run { (n : NodeLimits) (routes : List Route) (made : ℕ)
            → FollowsRun n routes made self.old →
            IfOk result (λ a. a ≡ Added.Done
            → FollowsRun n (routes ++ route_of team visits.now ∷ []) made self.new) }
        ensures list { (n : NodeLimits) (routes : List Route) (made : ℕ)
            → FollowsList n routes made self.old → IsOptimal self.old.rows →
            IfOk result (λ a. AddsAlong n routes made self.old
            (route_of team visits.now) a self.new) }
        ensures duals { IfOk result (λ a. a ≡ Added.Done → HaveSameDuals self.old self.new) }
    {
        if let Some(fault) = self.ended {
            return Ok(Added::Overflow(fault));
        }
        run_keeps();
        openers_within();
        places_are();
        entering_keeps_duals();
        let route = column_of(self.alloc, &self.places, team, visits)?;
        self.columns.reserve(1)?;
        match self.table.add(&route.numbers)? {
            Err(fault) => {
                self.ended = Some(fault);
                Ok(Added::Overflow(fault))
            }
            Ok(()) => {
                self.columns.push(column).unwrap();
                Ok(Added::Done)
            }
        }
    }

    /// Pivots until no variable has a negative reduced cost, or so many pivots were made. It takes no memory. After an
    /// overflow it answers the same to every call.
    pub fn solve(&mut self, pivots: u32) -> Solved
        ensures solves { Solves self.old pivots result self.new }

        // Along a run of the node.
        ensures run { (n : NodeLimits) (routes : List Route) (before : ℕ)
            → FollowsRun n routes before self.old →
            self.new.ended ≡ None → FollowsRun n routes (before + self.new.made) self.new }
        ensures list { (n : NodeLimits) (routes : List Route) (before : ℕ)
            → FollowsList n routes before self.old →
            SolvesAlong n routes before pivots result self.new }
    {
        if let Some(fault) = self.ended {
            return Solved::Overflow(fault);
        }
        pivot_keeps_width();
        run_keeps();
        some_row_bounds();
        rows_are_lowest();

        let (made, solved) = run(&mut self.table, pivots);
        self.made = made;
        if let Solved::Overflow(fault) = solved {
            self.ended = Some(fault);
        }
        solved
    }

    /// The value, as numerator and positive denominator.
    pub fn value(&self) -> Result<(i128, i128), Overflow>
        ensures value { GivesValue self.now result }

        // Strong duality: at an optimum of a run over routes of the node, at the prices and extras that `price` and `extra`
        // give, all of them numerators over one denominator.
        ensures dual { (n : NodeLimits) (routes : List Route) (made : ℕ) (prices : Prices)
            → FollowsRun n routes made self.now →
            IsOptimal self.now.rows → All (IsRouteIn n) routes
            → AreDuals n (value_row self.now.rows) prices →
            IfOk result (λ z. IsSumOf n routes prices z.0 z.1) }
    {
        if let Some(fault) = self.ended {
            return Err(fault);
        }
        run_keeps();
        strong_duality();
        let last = self.table.height() - 1;
        Ok((
            self.table.number(last, RIGHT),
            self.table.number(last, VALUE),
        ))
    }

    /// Makes `out` the positive shares of routes by rising column, and `left_open` the unassigned share of each task, 0 for a
    /// task with a required pair; all are over one denominator, which is answered: the least common multiple of those of these
    /// shares in lowest terms. After an overflow, or where memory is wanting, both lists are open.
    pub fn shares(
        &self,
        out: &mut Vec<Share>,
        left_open: &mut Vec<i128>,
    ) -> Result<Result<i128, Overflow>, AllocError>
        ensures shares { (n : NodeLimits) → self.now.places ≡ places n →
            IfOk result (λ r. GivesShares n self.now r out.new.items left_open.new.items) }

        // At the rows of a run: the shares are those of the basic solution, and an overflow of theirs belongs to the rows.
        ensures parts { (n : NodeLimits) (routes : List Route) (made : ℕ)
            → FollowsRun n routes made self.now →
            IfOk result (λ r. IfOk r (λ den.
            AreWholeParts n routes self.now.rows (unsigned_abs den)
            (parts_at self.now.rows (unsigned_abs den)))) }
        ensures belongs { (n : NodeLimits) (routes : List Route) (made : ℕ)
            → FollowsRun n routes made self.now → IsOptimal self.now.rows →
            IfOk result (λ r. IfErr r (λ f. (coming : List Route)
            → OverflowAt n self.now.rows coming f)) }

        // At an optimum of a run over routes of the node they are a fractional choice of the master's value.
        ensures optimum { (n : NodeLimits) (routes : List Route) (made : ℕ)
            → FollowsRun n routes made self.now →
            IsOptimal self.now.rows → All (IsRouteIn n) routes →
            IfOk result (λ r. IfOk r (λ den.
            IsOptimalChoice n self.now.rows
            (basic_choice n routes self.now.rows (unsigned_abs den)))) }
    {
        out.clear();
        left_open.clear();
        if let Some(fault) = self.ended {
            return Ok(Err(fault));
        }
        run_keeps();
        pivot_keeps_width();
        places_are();
        shares_are_parts();
        optimal_choice();
        let first = self.places.len();
        let columns = self.columns.len();
        match denominator_of(self.alloc, &self.table, &self.places, columns)? {
            Err(fault) => Ok(Err(fault)),
            Ok(whole) => {
                push_shares(out, &self.table, &self.columns, first, whole)?;
                push_open(left_open, &self.table, &self.places, self.tasks, whole)?;
                Ok(Ok(whole as i128))
            }
        }
    }

    /// The dual number of the row that opens with p.
    fn dual_of(&self, p: Place) -> Result<(i128, i128), Overflow>
        requires stands { Contains self.now.places p }
        requires opens { opens p ≡ true }
        requires costs { cost p ≡ pos BIG_M }
        ensures dual { GivesDual self.now p result }
        ensures belongs { (n : NodeLimits) (routes : List Route) (made : ℕ)
            → FollowsRun n routes made self.now → IsOptimal self.now.rows →
            IfErr result (λ f. (coming : List Route) → OverflowAt n self.now.rows coming f) }
    {
        if let Some(fault) = self.ended {
            return Err(fault);
        }
        run_keeps();
        openers_within();
        openers_differ();
        let j = place_of(&self.places, p);
        let last = self.table.height() - 1;
        raised(self.table.number(last, VALUE), self.table.number(last, j))
    }

    /// The price of task `i`, as numerator and positive denominator.
    pub fn price(&self, i: u32) -> Result<(i128, i128), Overflow>
        requires { Contains self.now.places (Place.Shortage i) }
        ensures price { GivesDual self.now (Place.Shortage i) result }
        ensures belongs { (n : NodeLimits) (routes : List Route) (made : ℕ)
            → FollowsRun n routes made self.now → IsOptimal self.now.rows →
            IfErr result (λ f. (coming : List Route) → OverflowAt n self.now.rows coming f) }
        ensures near { (n : NodeLimits) (routes : List Route) (made : ℕ)
            → FollowsRun n routes made self.now → IsOptimal self.now.rows →
            IfOk result (λ z. IsUpTo (z.1 *ℤ pos BIG_M) z.0) }
    {
        optimal_prices();
        duals_stand();
        places_are();
        self.dual_of(Place::Shortage(i))
    }

    /// The extra of team `k` at task `i`, where the team is required, as numerator and positive denominator.
    pub fn extra(&self, k: u32, i: u32) -> Result<(i128, i128), Overflow>
        requires { Contains self.now.places (Place.Missed k i) }
        ensures extra { GivesDual self.now (Place.Missed k i) result }
        ensures belongs { (n : NodeLimits) (routes : List Route) (made : ℕ)
            → FollowsRun n routes made self.now → IsOptimal self.now.rows →
            IfErr result (λ f. (coming : List Route) → OverflowAt n self.now.rows coming f) }
        ensures near { (n : NodeLimits) (routes : List Route) (made : ℕ)
            → FollowsRun n routes made self.now → IsOptimal self.now.rows →
            IfOk result (λ z. IsUpTo (z.1 *ℤ pos BIG_M) z.0) }
    {
        optimal_prices();
        duals_stand();
        places_are();
        self.dual_of(Place::Missed(k, i))
    }
}
