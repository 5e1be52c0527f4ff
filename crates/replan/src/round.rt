// One round: a plan of an instance, and a dossier of it.
ghost use Rattle.std.specs.Prelude.{◌≡◌, ◌≤◌, [], All, Err, IfOk, IfSome, List, OnOk, Option, length, map, option_copied, take};
ghost use Rattle.std.specs.List.{sum_by};
ghost use Rattle.cert_write.specs.Causes.{cause_of};
ghost use Rattle.cert_write.specs.Given.{Given};
ghost use Rattle.crew_io.specs.Puts.{TellsWrites};
ghost use Rattle.crew_terms.specs.Legal.{IsLegal};
ghost use Rattle.crew_terms.specs.Limits.{root_limits};
ghost use Rattle.crew_terms.specs.Plan.{Plan as Jobs};
ghost use Rattle.crew_terms.specs.declared.TheConstants.{MOST_NODES};
ghost use Rattle.dossier_terms.specs.Causes.{unshown_in};
ghost use Rattle.dossier_terms.specs.Dossier.{IsPooled};
ghost use Rattle.replan.specs.Given.{AreNumbersOf};
ghost use Rattle.replan.specs.Kept.{handed_in};
ghost use Rattle.replan.specs.Planning.{IsRoundPut};
ghost use Rattle.plan_again.specs.Stays.{StaysOrBetters};
ghost use Rattle.replan.specs.Staying.{BeginsFrom};
ghost use Rattle.route_terms.specs.Kept.{AreKeptIn};
ghost use Rattle.route_terms.specs.Named.{NamedRoute};
ghost use Rattle.search_core.specs.Steps.{IsSolved};

use crate::counts::Counts;
use crate::faults::SessionFault;
use crate::laws::{outcomes_are_rounds, pools_are_of_instances};
use bumpalo::Bump;
use cert_write::{Cause, Parts, write_dossier};
use column_arena::{ArenaColumns, Carry, Columns};
use crew_instance::{Instance, Plan, unassigned};
use crew_io::sink::Sink;
use crew_terms::MOST_NUMBER;
use flight_changes::PlannedJobs;
use node_limits::Limits;
use plan_again::repair;
use search_core::{DAY_EFFORT, Outcome, solve};
use std::alloc::{AllocError, Global};
use written_laws::{solved_pools_are_of_the_instance, told_causes};

/// The most routes that a pool may have.
const MOST_ROUTES: usize = MOST_NUMBER as usize;

/// What a round comes to: the numbers of its dossier, and its pool and its plan by names.
#[derive(Drop)]
pub(crate) struct Planned {
    pub(crate) counts: Counts,
    pub(crate) carry: Carry,
    pub(crate) jobs: PlannedJobs,
}

/// Adds the routes that are carried and that are routes of the instance to columns of which there are none yet. Answers how
/// many they are. AllocError where there is no memory.
fn place_kept<C: Columns>(
    alloc: Global,
    instance: &Instance,
    carry: &Option<Carry>,
    columns: &mut C,
) -> Result<usize, AllocError>
    requires { C.columns columns.old ≡ [] }
    ensures kept { OnOk result (AreKeptIn (root_limits instance.now) (handed_in carry.now)
        (C.columns columns.new)) }
    ensures count { IfOk result (λ count. count ≡ length (C.columns columns.new)) }
{
    let Some(carried) = carry else {
        return Ok(0);
    };
    let limits = Limits::root(alloc, instance)?;
    carried.place(&limits, columns)
}

/// 1 of a cause that does not show that the node had to be split.
fn unshown_in(cause: &Cause<'_>) -> u32
    ensures { result ≡ unshown_in (cause_of cause.now) }
{
    match cause {
        Cause::None | Cause::Overflow { .. } | Cause::Spent { .. } => 1,
        Cause::Loose { .. } => 0,
    }
}

/// How many causes do not show that the node had to be split.
fn unshown(causes: &[Cause<'_>]) -> u32
    requires { length causes.now ≤ MOST_NODES }
    ensures { result ≡ sum_by unshown_in (map cause_of causes.now) }
{
    let mut n = 0;
    for cause in causes {
        n += unshown_in(cause);
    }
    n
}

/// The numbers of the dossier of an outcome with these causes.
fn counts_of(outcome: &Outcome, causes: &[Cause<'_>]) -> Counts
    requires { length causes.now ≤ MOST_NODES }
    ensures { (g : Given) → g.causes ≡ map cause_of causes.now → AreNumbersOf g outcome.now result }
{
    let bound = outcome.bound;
    Counts {
        unassigned: unassigned(&outcome.plan),
        bound,
        splits: outcome.tree.splits(),
        closed: outcome.tree.closed(),
        left_open: outcome.tree.left_open(),
        unshown: unshown(causes),
    }
}

/// Writes the dossier of an outcome to which the search over the columns came, from the kept ones on. All memory is taken
/// before a byte is written.
fn put_outcome<K: Sink, C: Columns>(
    alloc: Global,
    instance: &Instance,
    nodes: u32,
    kept: usize,
    columns: &C,
    outcome: &Outcome,
    sink: &mut K,
) -> Result<Planned, SessionFault>
    requires few { nodes ≤ MOST_NODES }
    requires kept { kept ≤ length (C.columns columns.now) }
    requires pooled { All (IsPooled instance.now) (take kept (C.columns columns.now)) }
    requires solved { IsSolved instance.now nodes (take kept (C.columns columns.now))
        (C.columns columns.now) outcome.now }
    ensures put { (handed : List NamedRoute) (last begin : Option Jobs) →
        AreKeptIn (root_limits instance.now) handed (take kept (C.columns columns.now)) →
        IfSome last (λ old. IsLegal instance.now old → BeginsFrom old begin) →
        StaysOrBetters begin outcome.now.plan →
        IsRoundPut handed last (record { instance = instance.now; nodes = nodes }) result
        (K.got sink.old) (K.got sink.new) }
    ensures tells { TellsWrites K.Sink sink.old sink.new (result ≡ Err SessionFault.WriteFault) }
{
    outcomes_are_rounds();
    pools_are_of_instances();
    solved_pools_are_of_the_instance();
    // What always holds of the instance is known from here on.
    let _ = instance.teams();
    if columns.len() > MOST_ROUTES {
        return Err(SessionFault::OutOfMemory);
    }
    let carry = Carry::take(alloc, instance, columns)?;
    let causes = told_causes(alloc, &outcome.causes)?;
    let counts = counts_of(outcome, &causes);
    let jobs = PlannedJobs::of(alloc, instance, &outcome.plan)?;
    let parts = Parts {
        instance,
        nodes,
        kept,
        columns,
        plan: &outcome.plan,
        bound: outcome.bound,
        tree: &outcome.tree,
        causes: &causes,
    };
    write_dossier(alloc, sink, &parts)?;
    Ok(Planned {
        counts,
        carry,
        jobs,
    })
}

/// The plan with which a round begins: the last one, repaired, where it has a job. AllocError where there is no memory.
fn begin_of(
    alloc: Global,
    instance: &Instance,
    last: Option<&Plan>,
) -> Result<Option<Plan>, AllocError>
    ensures legal { IfOk result (λ begin. IfSome begin (IsLegal instance.now)) }
    ensures stays { IfSome (option_copied last.entry) (λ old. IsLegal instance.now old →
        IfOk result (BeginsFrom old)) }
{
    let Some(old) = last else {
        return Ok(None);
    };
    if unassigned(old) as usize == old.len() {
        return Ok(None);
    }
    Ok(Some(repair(alloc, instance, old)?))
}

/// Plans the instance by a search with so many steps, which goes out from the routes that are carried and from the last plan, if
/// there is one, and writes a dossier.
pub(crate) fn put_round<K: Sink>(
    alloc: Global,
    instance: &Instance,
    nodes: u32,
    carry: &Option<Carry>,
    last: Option<&Plan>,
    sink: &mut K,
) -> Result<Planned, SessionFault>
    requires { nodes ≤ MOST_NODES }
    ensures put { IsRoundPut (handed_in carry.now) (option_copied last.entry)
        (record { instance = instance.now; nodes = nodes }) result
        (K.got sink.old) (K.got sink.new) }
    ensures tells { TellsWrites K.Sink sink.old sink.new (result ≡ Err SessionFault.WriteFault) }
{
    pools_are_of_instances();
    let arena = Bump::new(alloc);
    let mut columns = ArenaColumns::new(alloc, &arena);
    let kept = place_kept(alloc, instance, carry, &mut columns)?;
    // What always holds of the columns is known from here on.
    let _ = columns.len();
    let begin = begin_of(alloc, instance, last)?;
    let outcome = solve(
        alloc,
        instance,
        nodes,
        begin.as_ref(),
        &mut columns,
        DAY_EFFORT,
    )?;
    put_outcome(alloc, instance, nodes, kept, &columns, &outcome, sink)
}
