// Minute prices.
ghost use Rattle.std.specs.Prelude.{◌≡◌, ◌≤◌, ◌<◌, ◌++◌, ◌∷◌, [], length, pos, replicate, IfOk, OnErr, OnOk};
ghost use Rattle.crew_instance.specs.Draft.{rows_of};
ghost use Rattle.squeeze_terms.specs.MinutePrices.{AreMinutePrices, is_joint, minute_price, price_count, price_place, prices_of, zero_minute_prices};

use crew_instance::Instance;
use crew_terms::Task;
use node_limits::Limits;
use std::alloc::{AllocError, Global};
use std::marker::Model;
use visit_rewards::Rewards;

/// Whether the task is joint: it needs two teams or more.
pub fn is_joint(task: &Task) -> bool
    ensures { result ≡ is_joint task.now }
{
    2 <= task.teams
}

/// How many prices the task has: one for each minute of its own window if it is joint, else one.
pub fn price_count(task: &Task) -> u32
    requires { task.now.latest ≤ 2880 }
    ensures { result ≡ price_count task.now }
{
    if is_joint(task) {
        (task.latest + 1).saturating_sub(task.earliest)
    } else {
        1
    }
}

/// Where the price of minute `t` stands among those of the task.
pub fn price_place(task: &Task, t: u32) -> u32
    ensures { result ≡ price_place task.now t }
{
    if is_joint(task) {
        t.saturating_sub(task.earliest)
    } else {
        0
    }
}

/// Prices of tasks by start minute, in 1/D of a task: for each task a price for each minute of its own window, if it is
/// joint, else one price for all minutes.
///
/// In contracts: the list of prices of each task.
#[derive(Drop)]
pub struct MinutePrices {
    rows: Vec<Vec<i64>>,
}

impl Model for MinutePrices {
    ghost use Rattle.squeeze_terms.specs.MinutePrices.{MinutePrices as PriceLists};

    ghost Value = { PriceLists };

    ghost use Rattle.crew_instance.specs.Draft.{rows_of};

    ghost view = { λ a. rows_of a.rows.items };
}

/// So many zeros.
fn zeros(alloc: Global, count: usize) -> Result<Vec<i64>, AllocError>
    ensures { IfOk result (λ row. row.items ≡ replicate count (pos 0)) }
{
    vec![in alloc; 0; count]
}

impl MinutePrices {
    /// Prices of no task.
    pub fn new(alloc: Global) -> MinutePrices
        ensures { result ≡ [] }
    {
        MinutePrices {
            rows: Vec::new(alloc),
        }
    }

    /// Adds the prices of the next task. After want of memory the prices are as before.
    pub fn push(&mut self, row: Vec<i64>) -> Result<(), AllocError>
        ensures ok { OnOk result (self.new ≡ self.old ++ row.items ∷ []) }
        ensures err { OnErr result (self.new ≡ self.old) }
    {
        self.rows.push(row)?;
        Ok(())
    }

    /// The prices that are all 0.
    pub fn zero(alloc: Global, instance: &Instance) -> Result<MinutePrices, AllocError>
        ensures { IfOk result (λ p. p ≡ zero_minute_prices instance.now) }
    {
        let mut prices = MinutePrices::new(alloc);
        for j in 0..instance.tasks() as u32 {
            let count = price_count(instance.task(j));
            prices.push(zeros(alloc, count as usize)?)?;
        }
        Ok(prices)
    }

    /// The prices of each task.
    pub fn rows(&self) -> &[Vec<i64>]
        ensures { rows_of result.now ≡ self.now }
    {
        &self.rows
    }

    /// The prices of task `j`.
    pub fn row(&self, j: u32) -> &[i64]
        requires { j < length self.now }
        ensures { result.now ≡ prices_of self.now j }
    {
        &self.rows[j as usize]
    }

    /// The price of task `j` at minute `t`, 0 where it has none.
    pub fn price(&self, instance: &Instance, j: u32, t: u32) -> i64
        requires task { j < length instance.now.tasks }
        requires rows { length self.now ≡ length instance.now.tasks }
        ensures { result ≡ minute_price instance.now self.now j t }
    {
        let place = price_place(instance.task(j), t) as usize;
        let row = self.row(j);
        if place < row.len() { row[place] } else { 0 }
    }
}

/// By minute prices a visit earns the price of its task and minute, whichever team makes it.
impl Rewards for MinutePrices {
    ghost earned = { λ n p k. minute_price n.instance p };

    ghost AreOf = { λ n p. AreMinutePrices n.instance p };

    fn reward(&self, limits: &Limits<'_>, _k: u32, j: u32, t: u32) -> i64 {
        self.price(limits.instance(), j, t)
    }
}
