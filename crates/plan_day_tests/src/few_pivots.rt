// Searches whose master may make few pivots or none: their dossiers are as good.
ghost use Rattle.std.specs.Prelude.{◌≡◌, OnOk};

use crate::answers::{answer, assert_answer};
use cert_write::{Parts, write_dossier};
use column_arena::VecColumns;
use crew_cli::run::Status;
use crew_fixtures::{
    Shown, crowded_hours, far_gates, hardly_overlapping, joint_task, lacking_skill, no_tasks,
    one_task, there_and_back, two_at_once,
};
use crew_instance::Instance;
use crew_io::sink::MemSink;
use search_core::{
    AscentEffort, Effort, Outcome, RebuildEffort, ScoutEffort, ScriptEffort, Search,
};
use std::alloc::{AllocError, Global};
use std::process::Abort;
use std::test::Fail;
use written_laws::{run_outcomes_are_writable, solved_causes_may_be_told, told_causes};

const NO_ASCENT: AscentEffort = AscentEffort {
    rounds: 0,
    step: 256,
    block: 10,
    looks: 1,
};

const NO_SEARCH: RebuildEffort = RebuildEffort {
    looks_a_task: 0,
    seed: 0,
};

const NO_SCRIPT: ScriptEffort = ScriptEffort {
    programs_a_step: 0,
    most_programs: 0,
    pricings_a_step: 0,
    pivots: 0,
    rounds: 0,
};

// Nothing but the master's run closes a node.
const MASTER_ALONE: Effort = Effort {
    iterations: 0,
    root: NO_ASCENT,
    root_of_many: NO_ASCENT,
    rebuild: NO_SEARCH,
    again: NO_ASCENT,
    rebuild_again: NO_SEARCH,
    rehearsal: NO_SCRIPT,
    below: NO_ASCENT,
    scout: ScoutEffort {
        pivots: 0,
        rounds: 0,
        routes: 0,
    },
    near: NO_SEARCH,
};

const NODES: u32 = 3;

/// Takes the due steps of a search, each with so many pivots of the master.
fn take_steps(
    search: &mut Search<'_>,
    columns: &mut VecColumns,
    pivots: u32,
) -> Result<(), AllocError>
    ensures { OnOk result (search.new.instance ≡ search.old.instance) }
{
    while let Some(key) = search.due() {
        search.step_with(key, columns, pivots)?;
    }
    Ok(())
}

/// The dossier of what a search comes to whose steps have so many pivots of the master.
fn dossier_with(alloc: Global, instance: &Instance, pivots: u32) -> Result<Vec<u8>, Fail> {
    run_outcomes_are_writable();
    solved_causes_may_be_told();
    let mut columns = VecColumns::new(alloc);
    let mut search = Search::new(alloc, instance, NODES, None, MASTER_ALONE)?;
    take_steps(&mut search, &mut columns, pivots)?;
    // It is known from here on that steps led to this.
    let _ = search.open_len();
    let outcome = search.close()?;
    let causes = told_causes(alloc, &outcome.causes)?;
    let parts = Parts {
        instance,
        nodes: NODES,
        kept: 0,
        columns: &columns,
        plan: &outcome.plan,
        bound: outcome.bound,
        tree: &outcome.tree,
        causes: &causes,
    };
    let mut out = MemSink::new(alloc, 100_000, 4096, Vec::new(alloc))?;
    write_dossier(alloc, &mut out, &parts)?;
    Ok(out.got().to_vec(alloc)?)
}

/// Asserts that the dossier of each number of pivots is one that `crew check` takes, with nothing better left or all nodes used.
fn assert_good(rt: &impl Abort, alloc: Global, instance: &Instance) -> Result<(), Fail> {
    for pivots in 0..6 {
        let dossier = dossier_with(alloc, instance, pivots)?;
        let (status, line) = answer(alloc, "check", &dossier)?;
        assert_eq!(rt; status, Status::Done, "{:?}", Shown(&dossier));
        assert!(rt; line.as_slice().starts_with(b"yes "), "{:?}", Shown(&line));
    }
    Ok(())
}

#[test]
fn dossiers_of_few_pivots_are_good(rt: HostRuntime) -> Result<(), Fail> {
    let alloc = rt.alloc();
    assert_good(&rt, alloc, &hardly_overlapping(alloc, 480)?)?;
    assert_good(&rt, alloc, &hardly_overlapping(alloc, 450)?)?;
    assert_good(&rt, alloc, &two_at_once(alloc)?)?;
    assert_good(&rt, alloc, &lacking_skill(alloc)?)
}

#[test]
fn dossiers_of_few_pivots_where_a_plan_does_all(rt: HostRuntime) -> Result<(), Fail> {
    let alloc = rt.alloc();
    assert_good(&rt, alloc, &no_tasks(alloc)?)?;
    assert_good(&rt, alloc, &one_task(alloc)?)?;
    assert_good(&rt, alloc, &joint_task(alloc)?)?;
    assert_good(&rt, alloc, &far_gates(alloc)?)
}

#[test]
fn dossiers_of_few_pivots_over_more_tasks(rt: HostRuntime) -> Result<(), Fail> {
    let alloc = rt.alloc();
    assert_good(&rt, alloc, &crowded_hours(alloc)?)?;
    assert_good(&rt, alloc, &there_and_back(alloc)?)
}

/// What `crew check` says of a dossier whose splits tell that their pivots were spent.
const SPENT: &[u8] = b"yes unassigned 1 bound 0 splits 3 closed 0 open 4 unshown 3\n";

#[test]
fn without_a_pivot_nodes_are_split_as_spent(rt: HostRuntime) -> Result<(), Fail> {
    let alloc = rt.alloc();
    let dossier = dossier_with(alloc, &hardly_overlapping(alloc, 480)?, 0)?;
    assert_answer(&rt, alloc, "check", &dossier, Status::Done, SPENT)
}
