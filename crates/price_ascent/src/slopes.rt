// The prices that an ascent moves, each with its range and with the way in which the bound rises.
ghost use Rattle.std.specs.Prelude.{◌≡◌, ◌<◌, ◌<ℤ◌, pos};
ghost use Rattle.crew_terms.specs.Leaf.{IsOnRequired};
ghost use Rattle.crew_terms.specs.Limits.{tasks_in, teams_in};
ghost use Rattle.potentials.specs.Prices.{ArePrices, ArePricesOf};

use crate::ranges::{as_price, is_required};
use crew_terms::{D, Visit};
use node_limits::Limits;
use potentials::Prices;
use std::alloc::{AllocError, Global};

/// One price on its way: where it stands, the least and the most that it may be, by how much the bound rises with it
/// (the places at a task that no visit takes), and in which direction it moves, in 1/256 of the same.
#[derive(Clone, Copy)]
pub(crate) struct Slope {
    price: i64,
    least: i64,
    most: i64,
    gradient: i64,
    direction: i64,
}

/// The slope of a required pair's price.
#[derive(Clone, Copy)]
struct PairSlope {
    team: u32,
    task: u32,
    slope: Slope,
}

// Prices of required pairs, and of tasks that have one, stay within this many units of 0: 20 tasks.
const WIDE: i64 = 20 * D as i64;

// More than all the visits that the routes of a day can make to one task; no direction is greater.
const STEEPEST: i64 = 1 << 40;

// The part of a direction that stays when it turns, in 1/256.
const STAYS: i128 = 160;

impl Slope {
    fn new(price: i64, least: i64, most: i64) -> Slope {
        Slope {
            price: price.max(least).min(most),
            least,
            most,
            gradient: 0,
            direction: 0,
        }
    }

    /// Turns the direction to the gradient: wholly, or by a part.
    fn turn(&mut self, wholly: bool) {
        let gradient = i128::from(self.gradient) * 256;
        let turned = if wholly {
            gradient
        } else {
            (gradient * (256 - STAYS) + i128::from(self.direction) * STAYS) / 256
        };
        self.direction = nearest_direction(turned);
    }

    /// The square of the direction; 0 where the price stands at the end of its range to which it would move.
    fn square(&self) -> i128 {
        let is_stopped = (self.direction > 0 && self.price >= self.most)
            || (self.direction < 0 && self.price <= self.least);
        if is_stopped {
            return 0;
        }
        let direction = i128::from(self.direction.max(-STEEPEST).min(STEEPEST));
        direction * direction
    }

    /// Moves the price by the step times its direction, over the norm, up to the end of its range.
    fn advance(&mut self, step: i128, norm: i128)
        requires { pos 0 <ℤ norm }
    {
        let by = step.saturating_mul(i128::from(self.direction)) / norm;
        let to = i128::from(self.price).saturating_add(by);
        self.price = to
            .max(i128::from(self.least))
            .min(i128::from(self.most))
            .max(i128::from(i64::MIN))
            .min(i128::from(i64::MAX)) as i64;
    }
}

// The direction that is nearest.
fn nearest_direction(v: i128) -> i64 {
    v.max(-(STEEPEST as i128)).min(STEEPEST as i128) as i64
}

/// The slopes of a node: of its tasks, by number, and of its required pairs, by team and then by task.
#[derive(Drop)]
pub(crate) struct Slopes {
    tasks: Vec<Slope>,
    pairs: Vec<PairSlope>,
}

impl Slopes {
    /// The slopes at these prices; AllocError where there is no memory.
    pub(crate) fn at(
        alloc: Global,
        limits: &Limits<'_>,
        prices: &Prices,
    ) -> Result<Slopes, AllocError>
        requires { ArePricesOf limits.now.limits prices.now }
    {
        let tasks = limits.instance().tasks();
        let mut slopes = Slopes {
            tasks: Vec::with_capacity(alloc, tasks)?,
            pairs: Vec::new(alloc),
        };
        for j in 0..tasks as u32 {
            slopes.tasks.push(slope_of_task(limits, prices, j))?;
        }
        for k in 0..limits.instance().teams() as u32 {
            slopes.add_pairs(limits, prices, k)?;
        }
        Ok(slopes)
    }

    // Adds the required pairs of team `k`.
    fn add_pairs(&mut self, limits: &Limits<'_>, prices: &Prices, k: u32) -> Result<(), AllocError>
        requires team { k < teams_in limits.now.limits }
        requires prices { ArePricesOf limits.now.limits prices.now }
    {
        for task in 0..limits.instance().tasks() as u32 {
            if is_required(limits, k, task) {
                let slope = Slope::new(prices.rho(k, task), -WIDE, WIDE);
                self.pairs.push(PairSlope {
                    team: k,
                    task,
                    slope,
                })?;
            }
        }
        Ok(())
    }

    /// Begins a round: as if no route visited any task.
    pub(crate) fn begin(&mut self, limits: &Limits<'_>) {
        for j in 0..limits.instance().tasks() as u32 {
            if let Some(slope) = self.tasks.get_mut(j as usize) {
                slope.gradient = i64::from(limits.instance().task(j).teams);
            }
        }
        for pair in &mut self.pairs {
            pair.slope.gradient = 1;
        }
    }

    /// Counts the visits of the route of team `k`.
    pub(crate) fn count(&mut self, k: u32, route: &[Visit]) {
        for visit in route {
            if let Some(slope) = self.tasks.get_mut(visit.task as usize) {
                slope.gradient = slope.gradient.saturating_sub(1);
            }
        }
        for pair in &mut self.pairs {
            if pair.team == k {
                let visits = route.iter().filter(|visit| visit.task == pair.task).count();
                pair.slope.gradient = 1i64.saturating_sub(visits as i64);
            }
        }
    }

    // Turns each direction to the gradient that was counted: wholly, or by a part.
    fn turn(&mut self, wholly: bool) {
        for slope in &mut self.tasks {
            slope.turn(wholly);
        }
        for pair in &mut self.pairs {
            pair.slope.turn(wholly);
        }
    }

    // The sum of the squares of the directions in which prices can move.
    fn norm(&self) -> i128 {
        let mut sum = 0i128;
        for slope in &self.tasks {
            sum = sum.saturating_add(slope.square());
        }
        for pair in &self.pairs {
            sum = sum.saturating_add(pair.slope.square());
        }
        sum
    }

    // Moves each price by the step times its direction, over the norm.
    fn advance(&mut self, step: i128, norm: i128)
        requires { pos 0 <ℤ norm }
    {
        for slope in &mut self.tasks {
            slope.advance(step, norm);
        }
        for pair in &mut self.pairs {
            pair.slope.advance(step, norm);
        }
    }

    /// Turns the directions, wholly or by a part, and moves the prices by steps of this length in all. Where no price can
    /// move in the direction that came of that, the directions are turned wholly.
    pub(crate) fn climb(&mut self, wholly: bool, length: i128) {
        self.turn(wholly);
        let mut norm = self.norm();
        if norm <= 0 {
            self.turn(true);
            norm = self.norm();
        }
        if norm > 0 {
            self.advance(length, norm);
        }
    }

    // Sets the prices of the tasks to where their slopes stand.
    fn write_tasks(&self, limits: &Limits<'_>, prices: &mut Prices)
        requires prices { ArePricesOf limits.now.limits prices.old }
        requires required { IsOnRequired limits.now.limits prices.old }
        ensures prices { ArePricesOf limits.now.limits prices.new }
        ensures required { IsOnRequired limits.now.limits prices.new }
    {
        for j in 0..limits.instance().tasks() as u32 {
            if let Some(slope) = self.tasks.get(j as usize) {
                prices.set_pi(j, as_price(slope.price));
            }
        }
    }

    /// Sets the prices to where the slopes stand.
    pub(crate) fn write(&self, limits: &Limits<'_>, prices: &mut Prices)
        requires prices { ArePricesOf limits.now.limits prices.old }
        requires required { IsOnRequired limits.now.limits prices.old }
        ensures prices { ArePricesOf limits.now.limits prices.new }
        ensures required { IsOnRequired limits.now.limits prices.new }
    {
        self.write_tasks(limits, prices);
        for pair in &self.pairs {
            set_pair(limits, prices, pair);
        }
    }
}

// The slope of task `j`: its price lies between 0 and what its teams can earn at most together, one task; where the node
// requires a team at it, anywhere.
fn slope_of_task(limits: &Limits<'_>, prices: &Prices, j: u32) -> Slope
    requires task { j < tasks_in limits.now.limits }
    requires prices { ArePricesOf limits.now.limits prices.now }
{
    let price = prices.pi(j);
    if limits.required(j) > 0 {
        return Slope::new(price, -WIDE, WIDE);
    }
    let teams = i64::from(limits.instance().task(j).teams.max(1));
    Slope::new(price, 0, i64::from(D) / teams)
}

// Sets the price of a pair to where its slope stands, if the node requires it.
fn set_pair(limits: &Limits<'_>, prices: &mut Prices, pair: &PairSlope)
    requires prices { ArePricesOf limits.now.limits prices.old }
    requires required { IsOnRequired limits.now.limits prices.old }
    ensures prices { ArePricesOf limits.now.limits prices.new }
    ensures required { IsOnRequired limits.now.limits prices.new }
{
    let instance = limits.instance();
    if (pair.team as usize) < instance.teams()
        && (pair.task as usize) < instance.tasks()
        && is_required(limits, pair.team, pair.task)
    {
        prices.set_rho(pair.team, pair.task, as_price(pair.slope.price));
    }
}
