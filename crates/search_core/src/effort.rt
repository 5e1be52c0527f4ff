// How much work a search may do.
ghost use Rattle.std.specs.Prelude.{◌≡◌, ◌≤◌, ◌<◌, ◌*◌, ◌^◌};
ghost use Rattle.search_core.specs.declared.effort.TheConstants.{MANY_TASKS};

use node_solver::{AscentEffort, Effort as NodeEffort, RehearsalEffort, RuinEffort, ScoutEffort};
use plan_again::Effort as FirstEffort;

/// More tasks than these are many.
pub const MANY_TASKS: usize = 150;

// No search for a better plan.
const NO_SEARCH: RuinEffort = RuinEffort { looks: 0, seed: 0 };

/// How much a search for a better plan at the root does: so many looks for each task, none where that is 0. With another seed
/// it draws otherwise.
#[derive(Clone, Copy, Debug)]
pub struct RebuildEffort {
    pub looks_a_task: u32,
    pub seed: u64,
}

impl RebuildEffort {
    /// The effort over so many tasks.
    pub fn over(&self, tasks: usize) -> RuinEffort
        ensures looks { self.now.looks_a_task * tasks < 2 ^ 64
            → result.looks ≡ self.now.looks_a_task * tasks }
        ensures seed { result.seed ≡ self.now.seed }
    {
        RuinEffort {
            looks: u64::from(self.looks_a_task).saturating_mul(tasks as u64),
            seed: self.seed,
        }
    }

    // The effort at the node of this number, 0 for the root, over so many tasks.
    fn at(&self, node: u32, tasks: usize) -> RuinEffort {
        if node > 0 {
            NO_SEARCH
        } else {
            self.over(tasks)
        }
    }
}

// With a smaller budget of steps no tree is rehearsed.
const LEAST_BUDGET: u32 = 3;

// No rehearsal.
const NO_REHEARSAL: RehearsalEffort = RehearsalEffort {
    programs: 0,
    pivots: 0,
    rounds: 0,
    pricings: 0,
};

/// How much a rehearsal of the tree does, for each step that the search may take: so many linear programs, and so many leaves that
/// are priced in wider nodes; and so many pivots and rounds in each program. Since a program over more tasks takes longer, there
/// are no more of them than `most_programs` by the square of the number of tasks.
#[derive(Clone, Copy, Debug)]
pub struct ScriptEffort {
    pub programs_a_step: u32,
    pub most_programs: u32,
    pub pricings_a_step: u32,
    pub pivots: u32,
    pub rounds: u32,
}

impl ScriptEffort {
    // So many programs at most, over so many tasks.
    fn most_over(&self, tasks: usize) -> u32 {
        let tasks = tasks.min(u32::MAX as usize) as u32;
        self.most_programs / tasks.saturating_mul(tasks).max(1)
    }

    // The effort at the node of this number, 0 for the root, over so many tasks, of a search of so many steps.
    fn at(&self, node: u32, tasks: usize, budget: u32) -> RehearsalEffort {
        if node > 0 || budget < LEAST_BUDGET {
            return NO_REHEARSAL;
        }
        let programs = self.programs_a_step.saturating_mul(budget);
        RehearsalEffort {
            programs: programs.min(self.most_over(tasks)),
            pivots: self.pivots,
            rounds: self.rounds,
            pricings: self.pricings_a_step.saturating_mul(budget),
        }
    }
}

/// How much work a search may do beside its master runs.
#[derive(Clone, Copy, Debug)]
pub struct Effort {
    /// So many iterations for a better plan before the first step.
    pub iterations: u32,
    /// The ascent at the root of few tasks.
    pub root: AscentEffort,
    /// The ascent at the root of many tasks.
    pub root_of_many: AscentEffort,
    /// The search for a better plan where that ascent doesn't close the root.
    pub rebuild: RebuildEffort,
    /// The ascent behind that search.
    pub again: AscentEffort,
    /// The longer search for a better plan where the scout doesn't close the root either.
    pub rebuild_again: RebuildEffort,
    /// The rehearsal of the tree where the root stays open still.
    pub rehearsal: ScriptEffort,
    /// The ascent at each other node.
    pub below: AscentEffort,
    /// The scout of columns at each node.
    pub scout: ScoutEffort,
    /// The search for a plan nearer to the one that the search began with, each time that a better one is found.
    pub near: RebuildEffort,
}

impl Effort {
    // The work before the first step, over so many tasks.
    pub(crate) fn first(&self, tasks: usize) -> FirstEffort {
        FirstEffort {
            iterations: self.iterations,
            near: self.near.over(tasks),
        }
    }

    /// The work of the ascent at the node of this number, 0 for the root, over so many tasks.
    pub fn ascent_at(&self, node: u32, tasks: usize) -> AscentEffort
        ensures few { node ≡ 0 → tasks ≤ MANY_TASKS → result ≡ self.now.root }
        ensures many { node ≡ 0 → MANY_TASKS < tasks → result ≡ self.now.root_of_many }
        ensures below { 0 < node → result ≡ self.now.below }
    {
        if node > 0 {
            return self.below;
        }
        if tasks > MANY_TASKS {
            self.root_of_many
        } else {
            self.root
        }
    }

    // The effort at the node of this number, over so many tasks, of a search of so many steps.
    pub(crate) fn at(&self, node: u32, tasks: usize, pivots: u32, budget: u32) -> NodeEffort
        ensures { result.pivots ≡ pivots }
    {
        NodeEffort {
            ascent: self.ascent_at(node, tasks),
            rebuild: self.rebuild.at(node, tasks),
            again: self.again,
            scout: self.scout,
            rebuild_again: self.rebuild_again.at(node, tasks),
            rehearsal: self.rehearsal.at(node, tasks, budget),
            pivots,
        }
    }
}

/// What the plans of a day are searched with.
pub const DAY_EFFORT: Effort = Effort {
    iterations: 20_000,
    root: AscentEffort {
        rounds: 500,
        step: 192,
        block: 7,
        looks: 10_000_000_000,
    },
    root_of_many: AscentEffort {
        rounds: 500,
        step: 256,
        block: 10,
        looks: 10_000_000_000,
    },
    rebuild: RebuildEffort {
        looks_a_task: 500_000,
        seed: 1,
    },
    again: AscentEffort {
        rounds: 500,
        step: 128,
        block: 10,
        looks: 10_000_000_000,
    },
    rebuild_again: RebuildEffort {
        looks_a_task: 3_000_000,
        seed: 2,
    },
    rehearsal: ScriptEffort {
        programs_a_step: 1,
        most_programs: 1_000_000,
        pricings_a_step: 10,
        pivots: 5_000,
        rounds: 60,
    },
    below: AscentEffort {
        rounds: 150,
        step: 128,
        block: 10,
        looks: 3_000_000_000,
    },
    scout: ScoutEffort {
        pivots: 30_000,
        rounds: 100,
        routes: 1_000,
    },
    near: RebuildEffort {
        looks_a_task: 100_000,
        seed: 3,
    },
};
