// The search: trials, each of which ruins and recreates.

use crate::draws::Draws;
use crate::facts::Facts;
use crate::kept::Old;
use crate::orders::Orders;
use crate::places::Place;
use crate::queue::Due;
use crate::weights::Weights;
use crew_instance::{Instance, Plan, unassigned};
use plan_check::is_as_good;
use std::alloc::{AllocError, Global};

// What a trial does besides its looks takes as long as so many of them.
const LOOKS_OF_TRIAL: u64 = 200;

/// A search under way, and the best plan that it has seen.
#[derive(Drop)]
pub(crate) struct Search<'i> {
    pub(crate) alloc: Global,
    pub(crate) instance: &'i Instance,
    pub(crate) facts: Facts,
    pub(crate) weights: Weights,
    pub(crate) draws: Draws,
    pub(crate) orders: Orders,
    // The tasks that no team does.
    pub(crate) pool: Vec<u32>,
    // The tasks that went out in this trial, those that are to be put in, and places of a task.
    pub(crate) out: Vec<u32>,
    pub(crate) due: Vec<Due>,
    pub(crate) places: Vec<Place>,
    // When this trial began, by the clock of the orders.
    pub(crate) now: u64,
    // How many places were looked at, and what trials count as.
    pub(crate) looks: u64,
    // The jobs that are to stay; how many do, how many did that went out in this trial, and how many do in the best plan.
    pub(crate) old: Old<'i>,
    pub(crate) kept: u64,
    pub(crate) gone: u64,
    most_kept: u64,
    pub(crate) best: Plan,
    least: usize,
}

// The unassigned tasks of a plan.
fn open_tasks(alloc: Global, plan: &Plan) -> Result<Vec<u32>, AllocError> {
    let mut open = Vec::new(alloc);
    for j in 0..plan.len() as u32 {
        if plan.start(j).is_none() {
            open.push(j)?;
        }
    }
    Ok(open)
}

impl<'i> Search<'i> {
    /// A search that begins at a plan; AllocError where there is no memory.
    pub(crate) fn new(
        alloc: Global,
        instance: &'i Instance,
        plan: &Plan,
        old: Old<'i>,
        seed: u64,
    ) -> Result<Search<'i>, AllocError> {
        let facts = Facts::of(alloc, instance)?;
        let weights = Weights::new(alloc, instance.tasks())?;
        let orders = Orders::of(alloc, instance, &facts, plan)?;
        let kept = old.count(&orders, facts.tasks());
        Ok(Search {
            alloc,
            instance,
            facts,
            weights,
            draws: Draws::new(seed),
            orders,
            pool: open_tasks(alloc, plan)?,
            out: Vec::new(alloc),
            due: Vec::new(alloc),
            places: Vec::new(alloc),
            now: 0,
            looks: 0,
            old,
            kept,
            gone: 0,
            most_kept: kept,
            best: plan.copy()?,
            least: unassigned(plan) as usize,
        })
    }

    /// Goes back to the best plan.
    pub(crate) fn go_back(&mut self) -> Result<(), AllocError> {
        self.orders = Orders::of(self.alloc, self.instance, &self.facts, &self.best)?;
        self.pool = open_tasks(self.alloc, &self.best)?;
        self.kept = self.most_kept;
        Ok(())
    }

    // The pool after a trial: what was left over before or went out, and isn't put in.
    fn make_pool(&mut self) -> Result<(), AllocError> {
        self.out.extend_from_slice(&self.pool)?;
        self.pool.clear();
        for j in &self.out {
            if !self.orders.is_assigned(*j) {
                self.pool.push(*j)?;
            }
        }
        Ok(())
    }

    // Whether fewer tasks are unassigned than in the best plan, or as few while more jobs stay.
    fn is_better(&self) -> bool {
        let count = self.pool.len();
        count < self.least || (count == self.least && self.kept > self.most_kept)
    }

    // Keeps the plan if it is better than the best one; goes back to that one if it isn't legal.
    fn keep_better(&mut self) -> Result<(), AllocError> {
        if !self.is_better() {
            return Ok(());
        }
        let plan = self.orders.plan(self.instance)?;
        if !is_as_good(self.instance, &plan, &self.best) {
            return self.go_back();
        }
        self.least = self.pool.len();
        self.most_kept = self.kept;
        self.best = plan;
        Ok(())
    }

    // Ruins and recreates once; what it does is undone where too much is left over.
    fn try_once(&mut self) -> Result<(), AllocError> {
        self.now = self.orders.tick();
        self.out.clear();
        self.gone = 0;
        let hole = self.ruin()?;
        if self.out.is_empty() {
            return Ok(());
        }
        if !self.orders.settle(&self.facts)? || !self.recreate(hole)? {
            self.orders.undo_to(0);
            return Ok(());
        }
        self.make_pool()?;
        self.keep_better()
    }

    // Whether no more tasks are unassigned than are enough.
    fn is_enough(&self, enough: Option<u32>) -> bool {
        match enough {
            Some(enough) => self.least <= enough as usize,
            None => false,
        }
    }

    /// Searches until so many places were looked at, where each trial counts as some of them, or until no more tasks are
    /// unassigned than are enough.
    pub(crate) fn run(&mut self, looks: u64, enough: Option<u32>) -> Result<(), AllocError> {
        for _ in 0..looks {
            if self.looks >= looks || self.is_enough(enough) {
                return Ok(());
            }
            self.looks = self.looks.saturating_add(LOOKS_OF_TRIAL);
            self.try_once()?;
            self.weights.learn(&self.pool, self.least);
        }
        Ok(())
    }
}
