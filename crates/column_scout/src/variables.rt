// The variables of a node's master: what its rows lack or have too much, what is left unassigned, and shares of routes.
ghost use Rattle.std.specs.Prelude.{◌<◌};
ghost use Rattle.crew_terms.specs.Limits.{tasks_in};

use crate::numbers::ONE;
use crate::rows::Rows;
use node_limits::Limits;
use std::alloc::{AllocError, Global};

// What a visit that is missing or too many costs: less than the master's penalty, but more than all prices come to.
const PENALTY: i64 = 1000 * ONE;

/// A variable: what it costs, and the rows in which it counts, each as often as it stands there, times a factor.
#[derive(Drop)]
pub(crate) struct Variable {
    pub(crate) cost: i64,
    pub(crate) factor: i64,
    pub(crate) rows: Vec<usize>,
    pub(crate) is_basic: bool,
}

impl Variable {
    /// The variable's number in a row of numbers, one for each row of the master.
    pub(crate) fn sum(&self, numbers: &[i64]) -> i64 {
        let mut sum = 0i64;
        for row in &self.rows {
            sum = sum.saturating_add(numbers.get(*row).copied().unwrap_or(0));
        }
        sum.saturating_mul(self.factor)
    }

    /// The cost, less what the rows' duals say of it.
    pub(crate) fn reduced_cost(&self, duals: &[i64]) -> i64 {
        self.cost.saturating_sub(self.sum(duals))
    }
}

// A variable that counts in one row.
fn at_row(alloc: Global, row: usize, factor: i64, cost: i64) -> Result<Variable, AllocError> {
    Ok(Variable {
        cost,
        factor,
        rows: vec![in alloc; row]?,
        is_basic: false,
    })
}

/// The variables of a node's master: for each row what it lacks, which are as many as there are rows; then what is left
/// unassigned and what is too much; then the shares of routes.
#[derive(Drop)]
pub(crate) struct Variables {
    alloc: Global,
    pub(crate) list: Vec<Variable>,
    // For each row the variable that is basic at the beginning.
    pub(crate) opening: Vec<usize>,
    // Where the shares of routes begin.
    pub(crate) shares: usize,
}

impl Variables {
    /// The variables of the node, without routes; AllocError where there is no memory.
    pub(crate) fn open(
        alloc: Global,
        limits: &Limits<'_>,
        rows: &Rows,
    ) -> Result<Variables, AllocError> {
        let mut variables = Variables {
            alloc,
            list: Vec::new(alloc),
            opening: Vec::new(alloc),
            shares: 0,
        };
        for row in 0..rows.len() {
            let cost = if row < rows.teams as usize {
                0
            } else {
                PENALTY
            };
            variables.opening.push(row)?;
            variables.add(row, 1, cost)?;
        }
        for task in 0..limits.instance().tasks() as u32 {
            variables.add_of_task(limits, rows, task)?;
        }
        for at in 0..rows.pairs.len() {
            variables.add(rows.of_pair(at), -1, PENALTY)?;
        }
        variables.shares = variables.list.len();
        Ok(variables)
    }

    // Adds a variable that counts in one row.
    fn add(&mut self, row: usize, factor: i64, cost: i64) -> Result<(), AllocError> {
        let variable = at_row(self.alloc, row, factor, cost)?;
        self.list.push(variable)?;
        Ok(())
    }

    // Adds what is left unassigned of a task, where it may be, and what it has too much.
    fn add_of_task(&mut self, limits: &Limits<'_>, rows: &Rows, task: u32) -> Result<(), AllocError>
        requires { task < tasks_in limits.now.limits }
    {
        let row = rows.of_task(task);
        self.add(row, -1, PENALTY)?;
        if limits.required(task) > 0 {
            return Ok(());
        }
        if let Some(opening) = self.opening.get_mut(row) {
            *opening = self.list.len();
        }
        self.add(row, i64::from(limits.instance().task(task).teams), ONE)
    }

    /// Adds the share of a route that counts in these rows.
    pub(crate) fn add_route(&mut self, rows: Vec<usize>, cost: i64) -> Result<(), AllocError> {
        self.list.push(Variable {
            cost,
            factor: 1,
            rows,
            is_basic: false,
        })?;
        Ok(())
    }

    /// The number of the route whose share the variable is.
    pub(crate) fn route_of(&self, variable: usize) -> Option<usize> {
        variable.checked_sub(self.shares)
    }
}
