// The shares of columns at a run's optimum.
ghost use Rattle.std.specs.Prelude.{◌≡◌, unsigned_abs, List, All, IfErr, IfOk, map};
ghost use Rattle.column_arena.specs.Legal.{IsLegalColumn};
ghost use Rattle.crew_terms.specs.Limits.{Limits as NodeLimits, Route};
ghost use Rattle.frac_master.specs.Shares.{IsOptimalChoice, basic_choice, parts_at};
ghost use Rattle.master_run.specs.Along.{Halts, IsOver};
ghost use Rattle.master_run.specs.Shares.{ArePositive, fractional_of};
ghost use Rattle.master_run.specs.State.{Rise, routes_of};
ghost use Rattle.search_terms.specs.BasicChoice.{AreWholeParts};

use crate::halt::Halt;
use crate::run::Run;
use frac_master::Share;
use master_laws::lists_are_runs;
use std::alloc::Global;

/// The share of each column that has one, and the share of each task that is left unassigned, in parts of which `den` make
/// one whole.
#[derive(Drop)]
pub struct Solution {
    pub den: i128,
    pub shares: Vec<Share>,
    pub left_open: Vec<i128>,
}

impl Run {
    /// The optimum: shares of columns that have entered, by rising number, a fractional choice of the master's value.
    pub fn solution(&self, alloc: Global) -> Result<Solution, Halt>
        ensures positive { (n : NodeLimits) (columns : List Route) → IsOver n columns self.now →
            IfOk result (λ s. ArePositive s.den s.shares.items s.left_open.items) }
        ensures legal { (n : NodeLimits) (columns : List Route) → IsOver n columns self.now →
            IfOk result (λ s. All (λ share. IsLegalColumn n columns share.column) s.shares.items) }
        ensures rise { (n : NodeLimits) (columns : List Route) → IsOver n columns self.now →
            IfOk result (λ s. Rise 0 (map (λ share. share.column) s.shares.items)) }
        ensures choice { (n : NodeLimits) (columns : List Route) → IsOver n columns self.now →
            IfOk result (λ s. IsOptimalChoice n self.now.master.rows
            (fractional_of columns s.den s.shares.items s.left_open.items)) }
        ensures parts { (n : NodeLimits) (columns : List Route) → IsOver n columns self.now
            → IfOk result (λ s.
            AreWholeParts n (routes_of columns self.now.ids) self.now.master.rows
            (unsigned_abs s.den) (parts_at self.now.master.rows (unsigned_abs s.den))) }
        ensures basic { (n : NodeLimits) (columns : List Route) → IsOver n columns self.now
            → IfOk result (λ s.
            fractional_of columns s.den s.shares.items s.left_open.items ≡
            basic_choice n (routes_of columns self.now.ids) self.now.master.rows
            (unsigned_abs s.den)) }
        ensures halts { (n : NodeLimits) (columns : List Route) → IsOver n columns self.now
            → IfErr result (Halts n self.now.pivots columns) }
    {
        lists_are_runs();
        let mut shares = Vec::new(alloc);
        let mut left_open = Vec::new(alloc);
        let den = self.master.shares(&mut shares, &mut left_open)??;
        Ok(Solution {
            den,
            shares,
            left_open,
        })
    }
}
