// The revised simplex method over the variables, in fixed point: it comes near to the optimum, and no more is claimed.
ghost use Rattle.std.specs.Prelude.{◌≤◌, IfOk};

use crate::lines::{Line, subtract, sum_of_products};
use crate::numbers::{ONE, wide};
use crate::rows::{Row, Rows};
use crate::variables::Variables;
use node_limits::Limits;
use rand_core::utils::NextWord;
use rand_pcg::Lcg64Xsh32;
use std::alloc::{AllocError, Global};
use std::mem;

// The stream of what the right sides get more, against ties, and the first seeds of those of tasks and of pairs.
const STREAM: u64 = 11;

const SEEDS_OF_TASKS: u64 = 1 << 16;

const SEEDS_OF_PAIRS: u64 = 1 << 20;

// So much more, at most, does a right side get.
const MOST_MORE: u32 = 1 << 20;

// A variable enters whose reduced cost is below this.
const ENTERS: i64 = -1024;

// No pivot is smaller.
const LEAST_PIVOT: i64 = 1 << 20;

// After so many pivots the inverse is made anew.
const PIVOTS_KEPT: u32 = 100;

/// The variables, a basis of them with its inverse, and the duals of the rows.
#[derive(Drop)]
pub(crate) struct Simplex {
    pub(crate) variables: Variables,
    pub(crate) lines: Vec<Line>,
    pub(crate) duals: Vec<i64>,
    right: Vec<i64>,
    // The basic variables while the inverse is made anew.
    basics: Vec<usize>,
    // The inverse's numbers in the line of the pivot, during it.
    pivot: Vec<i64>,
    // The pivots since the inverse was made anew.
    since: u32,
}

/// Whether the simplex method came to an optimum, and by how many pivots.
#[derive(Clone, Copy)]
pub(crate) struct Solved {
    pub(crate) is_optimal: bool,
    pub(crate) pivots: u32,
}

// The seed of what a row's right side gets more.
fn seed_of(row: Row) -> u64 {
    match row {
        Row::Class(team) => u64::from(team),
        Row::Task(task) => SEEDS_OF_TASKS + u64::from(task),
        Row::Pair(pair) => SEEDS_OF_PAIRS
            + u64::from(pair.team) * SEEDS_OF_TASKS
            + u64::from(pair.task),
    }
}

// How much more than its places a row's right side is.
fn more_of(row: Row) -> i64 {
    let mut draws = Lcg64Xsh32::new(seed_of(row), STREAM);
    i64::from(draws.next_word() % MOST_MORE)
}

/// The right sides, each a little greater; AllocError where there is no memory.
fn right_sides(alloc: Global, limits: &Limits<'_>, rows: &Rows) -> Result<Vec<i64>, AllocError> {
    let mut right = Vec::with_capacity(alloc, rows.len())?;
    for row in 0..rows.len() {
        let name = rows.name(row);
        let whole = rows.places(limits, name).saturating_mul(ONE);
        right.push(whole.saturating_add(more_of(name)))?;
    }
    Ok(right)
}

impl Simplex {
    /// The variables without routes, at a basis at which all tasks are unassigned that may be; AllocError where there is no
    /// memory.
    pub(crate) fn open(
        alloc: Global,
        limits: &Limits<'_>,
        rows: &Rows,
    ) -> Result<Simplex, AllocError> {
        let mut simplex = Simplex {
            variables: Variables::open(alloc, limits, rows)?,
            lines: Vec::with_capacity(alloc, rows.len())?,
            duals: vec![in alloc; 0; rows.len()]?,
            right: right_sides(alloc, limits, rows)?,
            basics: Vec::new(alloc),
            pivot: Vec::new(alloc),
            since: 0,
        };
        for _ in 0..rows.len() {
            simplex.lines.push(Line::new(alloc, rows.len())?)?;
        }
        simplex
            .basics
            .extend_from_slice(&simplex.variables.opening)?;
        simplex.make_inverse();
        Ok(simplex)
    }

    // The variable of least reduced cost, where that is low enough, and that cost.
    fn entering(&self) -> Option<(usize, i64)> {
        let mut best = None;
        let mut least = ENTERS;
        for n in 0..self.variables.list.len() {
            let variable = &self.variables.list[n];
            let cost = variable.reduced_cost(&self.duals);
            if cost < least && !variable.is_basic {
                least = cost;
                best = Some((n, cost));
            }
        }
        best
    }

    // Works out the number of the variable in each line.
    fn enter(&mut self, entering: usize) {
        let Some(variable) = self.variables.list.get(entering) else {
            return;
        };
        for line in &mut self.lines {
            line.entry = variable.sum(&line.inverse);
        }
    }

    // Whether the basic variable of the line comes to 0 before that of the best one, if there is one.
    fn comes_first(&self, line: &Line, best: Option<usize>) -> bool {
        let Some(at) = best else {
            return true;
        };
        match self.lines.get(at) {
            Some(other) => is_before(line, other),
            None => true,
        }
    }

    // The line whose basic variable is the first that comes to 0 as the entering one grows.
    fn leaving(&self) -> Option<usize> {
        let mut best: Option<usize> = None;
        for n in 0..self.lines.len() {
            if self.lines[n].entry <= LEAST_PIVOT {
                continue;
            }
            if self.comes_first(&self.lines[n], best) {
                best = Some(n);
            }
        }
        best
    }

    // Makes the entering variable basic in the line.
    fn exchange(&mut self, at: usize, entering: usize) {
        let Some(line) = self.lines.get_mut(at) else {
            return;
        };
        line.divide();
        line.entry = 0;
        mem::swap(&mut line.inverse, &mut self.pivot);
        let value = line.value;
        if let Some(variable) = self.variables.list.get_mut(line.basic) {
            variable.is_basic = false;
        }
        line.basic = entering;
        for line in &mut self.lines {
            line.clear(&self.pivot, value);
        }
        if let Some(line) = self.lines.get_mut(at) {
            mem::swap(&mut line.inverse, &mut self.pivot);
        }
        if let Some(variable) = self.variables.list.get_mut(entering) {
            variable.is_basic = true;
        }
    }

    // Moves the duals so that the basic variable of the line, whose reduced cost was this, has none.
    fn move_duals(&mut self, at: usize, cost: i64) {
        if let Some(line) = self.lines.get(at) {
            subtract(&mut self.duals, &line.inverse, cost.saturating_neg());
        }
    }

    // Has the variable enter, whose reduced cost is this. Answers whether it could.
    fn step(&mut self, entering: usize, cost: i64) -> Result<bool, AllocError> {
        self.enter(entering);
        let Some(at) = self.leaving() else {
            return Ok(false);
        };
        self.exchange(at, entering);
        self.move_duals(at, cost);
        self.since = self.since.saturating_add(1);
        if self.since >= PIVOTS_KEPT {
            self.renew()?;
        }
        Ok(true)
    }

    /// Pivots, so many times at most, until no variable has a low reduced cost.
    pub(crate) fn solve(&mut self, most: u32) -> Result<Solved, AllocError>
        ensures { IfOk result (λ s. s.pivots ≤ most) }
    {
        for pivots in 0..most {
            let Some((entering, cost)) = self.entering() else {
                return Ok(Solved {
                    is_optimal: true,
                    pivots,
                });
            };
            if !self.step(entering, cost)? {
                return Ok(Solved {
                    is_optimal: false,
                    pivots,
                });
            }
        }
        Ok(Solved {
            is_optimal: false,
            pivots: most,
        })
    }

    /// Begins with these variables as basic ones; where one is negative, its negative is basic in its place. AllocError where
    /// there is no memory.
    pub(crate) fn begin_with(&mut self, basics: Vec<usize>) -> Result<(), AllocError> {
        self.basics = basics;
        self.make_inverse();
        for n in 0..self.lines.len() {
            self.turn(n)?;
        }
        self.evaluate();
        Ok(())
    }

    // Has the negative of the line's basic variable in its place, if that is negative.
    fn turn(&mut self, at: usize) -> Result<(), AllocError> {
        let Some(line) = self.lines.get_mut(at) else {
            return Ok(());
        };
        if line.value >= 0 {
            return Ok(());
        }
        let basic = line.basic;
        let negative = self.variables.add_negative(basic)?;
        line.basic = negative;
        line.negate();
        self.variables.mark(basic, false);
        self.variables.mark(negative, true);
        Ok(())
    }

    // Makes the inverse anew.
    fn renew(&mut self) -> Result<(), AllocError> {
        self.basics.clear();
        for line in &self.lines {
            self.basics.push(line.basic)?;
        }
        self.make_inverse();
        Ok(())
    }

    // Makes the inverse of the listed basic variables. Where one fits no line any more, what its row lacks is basic for it.
    fn make_inverse(&mut self) {
        self.reset();
        for n in 0..self.basics.len() {
            let entering = self.basics.get(n).copied().unwrap_or(0);
            if entering >= self.lines.len() {
                self.enter(entering);
                if let Some(at) = self.free_line() {
                    self.exchange(at, entering);
                }
            }
        }
        self.evaluate();
        self.since = 0;
    }

    // Begins with what each row lacks.
    fn reset(&mut self) {
        for variable in &mut self.variables.list {
            variable.is_basic = false;
        }
        for n in 0..self.lines.len() {
            if let Some(line) = self.lines.get_mut(n) {
                line.reset(n, ONE);
            }
        }
        // What is to stay basic in its own row is marked.
        for n in &self.basics {
            if *n < self.lines.len() {
                if let Some(variable) = self.variables.list.get_mut(*n) {
                    variable.is_basic = true;
                }
            }
        }
    }

    // The line with the greatest entry, of those whose variables aren't to be basic.
    fn free_line(&self) -> Option<usize> {
        let mut best = None;
        let mut most = LEAST_PIVOT;
        for n in 0..self.lines.len() {
            let line = &self.lines[n];
            let is_fixed = match self.variables.list.get(line.basic) {
                Some(variable) => variable.is_basic,
                None => true,
            };
            let size = line.entry.saturating_abs();
            if size > most && !is_fixed {
                most = size;
                best = Some(n);
            }
        }
        best
    }

    // Works out the values of the basic variables, and the duals.
    fn evaluate(&mut self) {
        for dual in &mut self.duals {
            *dual = 0;
        }
        for line in &mut self.lines {
            line.value = sum_of_products(&line.inverse, &self.right);
            if let Some(variable) = self.variables.list.get_mut(line.basic) {
                variable.is_basic = true;
                subtract(
                    &mut self.duals,
                    &line.inverse,
                    variable.cost.saturating_neg(),
                );
            }
        }
    }
}

// Whether the basic variable of the first line comes to 0 before that of the second.
fn is_before(line: &Line, other: &Line) -> bool {
    wide(line.value.max(0), other.entry) < wide(other.value.max(0), line.entry)
}
