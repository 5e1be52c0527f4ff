// Price runs, and what they hand out.
ghost use Rattle.std.specs.Prelude.{◌≡◌, ◌≤◌, ◌<◌, ◌+◌, ◌<ℤ◌, ◌≤ℤ◌, length, map, IfOk};
ghost use Rattle.std.specs.List.{range_with_len};
ghost use Rattle.crew_terms.specs.Limits.{root_limits, tasks_in};
ghost use Rattle.label_pricing.specs.Pricing.{HasRoom};
ghost use Rattle.price_run.specs.RunState.{IsRunAfter};
ghost use Rattle.squeeze_terms.specs.Possible.{possible_minutes};
ghost use Rattle.squeeze_terms.specs.Run.{prices_after};
ghost use Rattle.squeeze_terms.specs.Squeezed.{IsSqueezed};
ghost use Rattle.squeeze_terms.specs.declared.TheConstants.{MOST_STEPS};

use crate::evaluated::{evaluate, find_demands};
use crate::moves::next_prices;
use crate::traces::{StepRoutes, Trace};
use crew_instance::Instance;
use label_pricing::{Pricer, most_proved};
use minute_prices::{MinutePrices, PossibleMinutes};
use node_limits::Limits;
use squeeze_laws::runs_have_minute_prices;
use std::alloc::{AllocError, Global};

/// What a price run hands out: the first number of steps whose prices have the greatest bound, the greatest number of
/// unassigned tasks that it proves, and the routes of each step, which determine the run.
#[derive(Drop)]
pub struct Squeezed {
    pub at: u32,
    pub l: u32,
    pub trace: Trace,
}

/// A number of steps, and the bound of the prices after them, in 1/D of a task.
#[derive(Clone, Copy)]
pub(crate) struct Best {
    pub steps: u32,
    pub bound: i128,
}

/// The first greatest of two bounds, of which the second comes later.
fn better(old: Best, new: Best) -> Best
    ensures greater { old.bound <ℤ new.bound → result ≡ new }
    ensures kept { new.bound ≤ℤ old.bound → result ≡ old }
{
    if new.bound > old.bound { new } else { old }
}

/// A price run after some steps: the prices, with the demands and the routes of the next step; the routes of the steps so
/// far; and the first greatest bound so far.
#[derive(Drop)]
pub(crate) struct Run {
    pub prices: MinutePrices,
    pub demands: Vec<Option<u32>>,
    pub routes: StepRoutes,
    pub trace: Trace,
    pub best: Best,
}

/// The run before its first step.
fn begin(
    alloc: Global,
    limits: &Limits<'_>,
    possible: &PossibleMinutes,
    pricer: &mut Pricer,
) -> Result<Run, AllocError>
    requires root { limits.now.limits ≡ root_limits limits.now.limits.instance }
    requires possible { possible.now ≡ map (possible_minutes limits.now.limits.instance)
        (range_with_len 0 (tasks_in limits.now.limits)) }
    requires room { HasRoom limits.now.limits.instance pricer.old }
    ensures run { IfOk result (IsRunAfter limits.now.limits.instance 0) }
    ensures room { HasRoom limits.now.limits.instance pricer.new }
{
    runs_have_minute_prices();
    let prices = MinutePrices::zero(alloc, limits.instance())?;
    let now = evaluate(alloc, limits, possible, &prices, pricer)?;
    Ok(Run {
        prices,
        demands: now.demands,
        routes: now.routes,
        trace: Trace::new(alloc),
        best: Best {
            steps: 0,
            bound: now.bound,
        },
    })
}

/// The run after step `s`.
fn advance(
    alloc: Global,
    limits: &Limits<'_>,
    possible: &PossibleMinutes,
    pricer: &mut Pricer,
    s: u32,
    run: Run,
) -> Result<Run, AllocError>
    requires root { limits.now.limits ≡ root_limits limits.now.limits.instance }
    requires possible { possible.now ≡ map (possible_minutes limits.now.limits.instance)
        (range_with_len 0 (tasks_in limits.now.limits)) }
    requires step { s < 1000 }
    requires run { IsRunAfter limits.now.limits.instance s run }
    requires room { HasRoom limits.now.limits.instance pricer.old }
    ensures run { IfOk result (IsRunAfter limits.now.limits.instance (s + 1)) }
    ensures room { HasRoom limits.now.limits.instance pricer.new }
{
    runs_have_minute_prices();
    let instance = limits.instance();
    let prices = next_prices(alloc, instance, s, &run.prices, &run.routes, &run.demands)?;
    let now = evaluate(alloc, limits, possible, &prices, pricer)?;
    let mut trace = run.trace;
    trace.push(run.routes)?;
    let last = Best {
        steps: s + 1,
        bound: now.bound,
    };
    Ok(Run {
        prices,
        demands: now.demands,
        routes: now.routes,
        trace,
        best: better(run.best, last),
    })
}

/// The prices after `s` steps with the routes of a trace. The only error is want of memory.
pub fn prices_at(
    alloc: Global,
    instance: &Instance,
    trace: &Trace,
    s: u32,
) -> Result<MinutePrices, AllocError>
    requires few { s ≤ MOST_STEPS }
    requires known { s ≤ length trace.now }
    ensures { IfOk result (λ p. p ≡ prices_after instance.now trace.now s) }
{
    runs_have_minute_prices();
    let limits = Limits::root(alloc, instance)?;
    let possible = PossibleMinutes::of(alloc, &limits)?;
    let mut prices = MinutePrices::zero(alloc, instance)?;
    for step in 0..s {
        let demands = find_demands(alloc, instance, &possible, &prices)?;
        let routes = trace.step(step as usize);
        prices = next_prices(alloc, instance, step, &prices, routes, &demands)?;
    }
    Ok(prices)
}

/// A price run of so many steps on an instance. Each team is priced over its visits before each step, at the root, with
/// the frozen jobs: a step takes about as long as pricing all teams once. The only error is want of memory, which is taken
/// for the prices, the cells of one team, and the trace.
///
/// The steps are those of the subgradient method of Held, Wolfe and Crowder (Validation of subgradient optimization, 1974),
/// with step lengths that fall as 1 / (s + 1).
pub fn squeeze(alloc: Global, instance: &Instance, steps: u32) -> Result<Squeezed, AllocError>
    requires { steps ≤ MOST_STEPS }
    ensures { IfOk result (λ got. IsSqueezed instance.now steps got.at got.l got.trace) }
{
    let limits = Limits::root(alloc, instance)?;
    let possible = PossibleMinutes::of(alloc, &limits)?;
    let mut pricer = Pricer::reserve(alloc, instance)?;
    let mut run = begin(alloc, &limits, &possible, &mut pricer)?;
    for s in 0..steps {
        run = advance(alloc, &limits, &possible, &mut pricer, s, run)?;
    }
    Ok(Squeezed {
        at: run.best.steps,
        l: most_proved(&limits, run.best.bound),
        trace: run.trace,
    })
}
