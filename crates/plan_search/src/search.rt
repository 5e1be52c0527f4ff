// The search: tasks are put into the orders, others go out for them, and tasks are moved.

use crate::bettered::Effort;
use crate::draws::Draws;
use crate::facts::Facts;
use crate::memory::Memory;
use crate::orders::Orders;
use crate::picks::{Picks, cheapest};
use crate::places::Place;
use crew_instance::{Instance, Plan, unassigned};
use plan_check::is_as_good;
use std::alloc::{AllocError, Global};

// A task that was put in by taking others out stays for so many iterations at least, and at most for so many more.
const SHORTEST_HOLD: usize = 10;

const MORE_HOLD: usize = 10;

// Moves of a task are drawn by costs below this.
const DRAWN_COSTS: usize = 1 << 20;

/// A search under way, and the best plan that it has seen.
#[derive(Drop)]
pub(crate) struct Search<'i> {
    alloc: Global,
    instance: &'i Instance,
    facts: Facts,
    memory: Memory,
    draws: Draws,
    orders: Orders,
    // The tasks that no team does.
    pool: Vec<u32>,
    places: Vec<Place>,
    best: Plan,
    least: usize,
}

// The unassigned tasks of a plan.
fn open_tasks(alloc: Global, plan: &Plan) -> Result<Vec<u32>, AllocError> {
    let mut open = Vec::new(alloc);
    for j in 0..plan.len() as u32 {
        if plan.start(j).is_none() {
            open.push(j)?;
        }
    }
    Ok(open)
}

impl<'i> Search<'i> {
    /// A search that begins at a plan; AllocError where there is no memory.
    pub(crate) fn new(
        alloc: Global,
        instance: &'i Instance,
        plan: &Plan,
        weights: Option<&[u32]>,
    ) -> Result<Search<'i>, AllocError> {
        let facts = Facts::of(alloc, instance)?;
        let memory = Memory::new(alloc, &facts, weights)?;
        let orders = Orders::of(alloc, instance, &facts, plan)?;
        Ok(Search {
            alloc,
            instance,
            facts,
            memory,
            draws: Draws::new(),
            orders,
            pool: open_tasks(alloc, plan)?,
            places: Vec::new(alloc),
            best: plan.copy()?,
            least: unassigned(plan) as usize,
        })
    }

    // Goes back to the best plan.
    fn go_back(&mut self) -> Result<(), AllocError> {
        self.orders = Orders::of(self.alloc, self.instance, &self.facts, &self.best)?;
        self.pool = open_tasks(self.alloc, &self.best)?;
        self.memory.forget_tries();
        Ok(())
    }

    // Lists the places of task `j` between other tasks.
    fn list_gaps(&mut self, j: u32) -> Result<(), AllocError> {
        self.places.clear();
        for k in 0..self.orders.teams() {
            self.orders.add_gaps(&self.facts, k, j, &mut self.places)?;
        }
        Ok(())
    }

    // Lists the places of task `j` between other tasks, of the teams of which something changed since then.
    fn list_new_gaps(&mut self, j: u32, time: u64) -> Result<(), AllocError> {
        self.places.clear();
        for k in 0..self.orders.teams() {
            if self.orders.changed_since(k, time) {
                self.orders.add_gaps(&self.facts, k, j, &mut self.places)?;
            }
        }
        Ok(())
    }

    // Lists the places of task `j` in place of other tasks.
    fn list_exchanges(&mut self, j: u32) -> Result<(), AllocError> {
        for k in 0..self.orders.teams() {
            self.orders
                .add_exchanges(&self.facts, k, j, &self.memory, &mut self.places)?;
        }
        Ok(())
    }

    // Sets the costs of the places that are listed: to nothing, or to draws.
    fn set_costs(&mut self, drawn: bool) {
        for place in &mut self.places {
            place.cost = if drawn {
                self.draws.below(DRAWN_COSTS) as u32
            } else {
                0
            };
        }
    }

    // The cheapest of the places of task `j` that are listed.
    fn pick(&mut self, j: u32) -> Picks {
        cheapest(&mut self.draws, &mut self.places, self.facts.wanted(j))
    }

    // Puts task `j` where it fits with the least detours. Answers whether it could.
    fn insert(&mut self, j: u32) -> Result<bool, AllocError> {
        let time = self.orders.tick();
        let tried = self.memory.try_now(j, time);
        self.list_new_gaps(j, tried)?;
        if self.places.is_empty() {
            return Ok(false);
        }
        if self.facts.wanted(j) > 1 {
            self.list_gaps(j)?;
        }
        let picks = self.pick(j);
        self.orders.put(&self.facts, j, picks.as_slice())
    }

    // Puts each task that fits into the orders, in a drawn order.
    fn insert_all(&mut self) -> Result<(), AllocError> {
        self.draws.shuffle(&mut self.pool);
        for at in (0..self.pool.len()).rev() {
            let Some(j) = self.pool.get(at).copied() else {
                return Ok(());
            };
            if self.insert(j)? {
                self.drop_from_pool(at);
            }
        }
        Ok(())
    }

    // The task at the place in the pool isn't there any more.
    fn drop_from_pool(&mut self, at: usize) {
        if at < self.pool.len() {
            self.pool.swap_remove(at);
        }
    }

    // Keeps the plan if it is better than the best one; goes back to that one if it isn't legal.
    fn keep_better(&mut self) -> Result<(), AllocError> {
        if self.pool.len() >= self.least {
            return Ok(());
        }
        let plan = self.orders.plan(self.instance)?;
        if !is_as_good(self.instance, &plan, &self.best) {
            return self.go_back();
        }
        self.least = self.pool.len();
        self.best = plan;
        Ok(())
    }

    // Takes out the tasks that have to go for these places. Answers whether each of the others can begin.
    fn clear_places(&mut self, picks: &Picks) -> Result<bool, AllocError> {
        self.orders.tick();
        for pick in picks {
            if let Some(out) = pick.out {
                if self.orders.is_assigned(out) {
                    self.pool.push(out)?;
                    if !self.orders.remove(&self.facts, out)? {
                        return Ok(false);
                    }
                }
            }
        }
        Ok(true)
    }

    // Puts a drawn task of the pool where those that have to go out for it weigh least.
    fn exchange(&mut self) -> Result<(), AllocError> {
        let at = self.draws.below(self.pool.len());
        let Some(j) = self.pool.get(at).copied() else {
            return Ok(());
        };
        self.memory.add_weight(j);
        self.list_gaps(j)?;
        self.set_costs(false);
        self.list_exchanges(j)?;
        let picks = self.pick(j);
        if picks.is_empty() {
            return Ok(());
        }
        if !self.clear_places(&picks)? {
            return self.go_back();
        }
        if self.orders.put(&self.facts, j, picks.as_slice())? {
            self.drop_from_pool(at);
        }
        let more = self.draws.below(MORE_HOLD + 1);
        self.memory.hold(j, SHORTEST_HOLD + more);
        Ok(())
    }

    // Where task `j` stands in the orders.
    fn places_of(&self, j: u32) -> Picks {
        let mut places = Picks::new();
        for team in self.orders.crew(j) {
            if let Some(at) = self.orders.place_of(*team, j) {
                let behind = self.orders.task_before(*team, at);
                let _ = places.try_push(Place {
                    team: *team,
                    behind,
                    ..Place::default()
                });
            }
        }
        places
    }

    // Puts a drawn task to drawn places where it fits, or back.
    fn shift(&mut self) -> Result<(), AllocError> {
        let j = self.draws.below(self.instance.tasks()) as u32;
        if self.facts.is_frozen(j) || !self.orders.is_assigned(j) {
            return Ok(());
        }
        let old = self.places_of(j);
        self.orders.tick();
        if !self.orders.remove(&self.facts, j)? {
            return self.go_back();
        }
        self.list_gaps(j)?;
        self.set_costs(true);
        let picks = self.pick(j);
        if self.orders.put(&self.facts, j, picks.as_slice())? {
            return Ok(());
        }
        if !self.orders.put(&self.facts, j, old.as_slice())? {
            self.pool.push(j)?;
        }
        Ok(())
    }

    /// Searches for so many iterations, or until no more tasks are unassigned than are to be.
    pub(crate) fn run(&mut self, effort: Effort<'_>) -> Result<(), AllocError> {
        for now in 0..effort.iterations {
            self.memory.begin(now);
            self.insert_all()?;
            self.keep_better()?;
            if self.least <= effort.enough as usize {
                return Ok(());
            }
            self.exchange()?;
            self.shift()?;
        }
        Ok(())
    }

    /// The best plan that was seen.
    pub(crate) fn into_best(self) -> Plan {
        self.best
    }
}
