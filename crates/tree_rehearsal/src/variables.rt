// The variables of a node's linear program: what its rows lack or have too much, what is left unassigned, and shares of routes.
ghost use Rattle.std.specs.Prelude.{◌<◌};
ghost use Rattle.crew_terms.specs.Limits.{tasks_in};

use crate::numbers::ONE;
use crate::rows::{Row, Rows};
use node_limits::Limits;
use std::alloc::{AllocError, Global};

// What a visit that is missing or too many costs.
const PENALTY: i64 = 100 * ONE;

// What a variable costs that must not be: more than it can do, but little more, since all else is to stay as it is.
const BARRED: i64 = 3 * ONE;

/// What a variable is: what a row lacks, or has too much; what is left unassigned of a task; the share of a route of the pool,
/// for the class of this first team; or what there was in another node, and must not be here.
#[derive(Clone, Copy, PartialEq, Eq)]
pub(crate) enum Name {
    Lack(Row),
    Excess(Row),
    Unassigned(u32),
    Share { route: usize, team: u32 },
    Barred,
}

/// A variable: what it is and costs, and the rows in which it counts, each as often as it stands there, times a factor; and maybe
/// one in which it counts against that.
#[derive(Drop)]
pub(crate) struct Variable {
    pub(crate) name: Name,
    pub(crate) cost: i64,
    pub(crate) factor: i64,
    pub(crate) rows: Vec<usize>,
    pub(crate) against: Option<usize>,
    pub(crate) is_basic: bool,
}

impl Variable {
    /// The variable's number in a row of numbers, one for each row of the program.
    pub(crate) fn sum(&self, numbers: &[i64]) -> i64 {
        let mut sum = 0i64;
        for row in &self.rows {
            sum = sum.saturating_add(numbers.get(*row).copied().unwrap_or(0));
        }
        if let Some(row) = self.against {
            sum = sum.saturating_sub(numbers.get(row).copied().unwrap_or(0));
        }
        sum.saturating_mul(self.factor)
    }

    /// The cost, less what the rows' duals say of it.
    pub(crate) fn reduced_cost(&self, duals: &[i64]) -> i64 {
        self.cost.saturating_sub(self.sum(duals))
    }
}

/// The variables of a program: for each row what it lacks, which are as many as there are rows; then what is left unassigned and
/// what is too much; then shares of routes, and negatives.
#[derive(Drop)]
pub(crate) struct Variables {
    alloc: Global,
    pub(crate) list: Vec<Variable>,
    // For each row the variable that is basic at the beginning.
    pub(crate) opening: Vec<usize>,
}

impl Variables {
    /// The variables of the node, without routes; AllocError where there is no memory.
    pub(crate) fn open(
        alloc: Global,
        limits: &Limits<'_>,
        rows: &Rows,
    ) -> Result<Variables, AllocError> {
        let mut variables = Variables {
            alloc,
            list: Vec::new(alloc),
            opening: Vec::new(alloc),
        };
        variables.add_lacks(rows)?;
        for task in 0..limits.instance().tasks() as u32 {
            variables.add_of_task(limits, rows, task)?;
        }
        for at in 0..rows.pairs.len() {
            let name = Name::Excess(Row::Pair(rows.pairs[at]));
            variables.add(name, rows.of_pair(at), -1, PENALTY)?;
        }
        Ok(variables)
    }

    // Adds what each row lacks, which is basic at the beginning: a team may stay at home, but all else costs.
    fn add_lacks(&mut self, rows: &Rows) -> Result<(), AllocError> {
        for row in 0..rows.len() {
            let name = rows.name(row);
            let cost = match name {
                Row::Class(_) => 0,
                Row::Task(_) | Row::Pair(_) => PENALTY,
            };
            self.opening.push(row)?;
            self.add(Name::Lack(name), row, 1, cost)?;
        }
        Ok(())
    }

    // Adds a variable that counts in one row.
    fn add(&mut self, name: Name, row: usize, factor: i64, cost: i64) -> Result<(), AllocError> {
        self.list.push(Variable {
            name,
            cost,
            factor,
            rows: vec![in self.alloc; row]?,
            against: None,
            is_basic: false,
        })?;
        Ok(())
    }

    // Adds what is left unassigned of a task, where it may be, and what it has too much.
    fn add_of_task(&mut self, limits: &Limits<'_>, rows: &Rows, task: u32) -> Result<(), AllocError>
        requires { task < tasks_in limits.now.limits }
    {
        let row = rows.of_task(task);
        self.add(Name::Excess(Row::Task(task)), row, -1, PENALTY)?;
        if limits.required(task) > 0 {
            return Ok(());
        }
        if let Some(opening) = self.opening.get_mut(row) {
            *opening = self.list.len();
        }
        let teams = i64::from(limits.instance().task(task).teams);
        self.add(Name::Unassigned(task), row, teams, ONE)
    }

    /// Adds the share of a route that counts in these rows.
    pub(crate) fn add_share(
        &mut self,
        route: usize,
        team: u32,
        rows: Vec<usize>,
    ) -> Result<(), AllocError> {
        self.list.push(Variable {
            name: Name::Share { route, team },
            cost: 0,
            factor: 1,
            rows,
            against: None,
            is_basic: false,
        })?;
        Ok(())
    }

    /// Adds a variable that must not be, at a high cost, and gives its number.
    pub(crate) fn add_barred(
        &mut self,
        factor: i64,
        rows: Vec<usize>,
        against: Option<usize>,
    ) -> Result<usize, AllocError> {
        let at = self.list.len();
        self.list.push(Variable {
            name: Name::Barred,
            cost: BARRED,
            factor,
            rows,
            against,
            is_basic: false,
        })?;
        Ok(at)
    }

    /// Adds the negative of a variable, which must not be.
    pub(crate) fn add_negative(&mut self, of: usize) -> Result<usize, AllocError> {
        match self.list.get(of) {
            Some(variable) => {
                let factor = variable.factor.saturating_neg();
                let rows = Vec::from_slice(self.alloc, &variable.rows)?;
                let against = variable.against;
                self.add_barred(factor, rows, against)
            }
            None => self.add_barred(1, Vec::new(self.alloc), None),
        }
    }

    /// Marks whether the variable is basic.
    pub(crate) fn mark(&mut self, variable: usize, is_basic: bool) {
        if let Some(variable) = self.list.get_mut(variable) {
            variable.is_basic = is_basic;
        }
    }

    /// The variable with this name.
    pub(crate) fn find(&self, name: Name) -> Option<usize> {
        self.list.iter().position(|variable| variable.name == name)
    }
}
