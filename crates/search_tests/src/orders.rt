// Searches whose steps take open leaves in different orders.
use column_arena::VecColumns;
use crew_fixtures::hardly_overlapping;
use crew_instance::Instance;
use search_core::{
    AscentEffort, DAY_EFFORT, Effort, RebuildEffort, ScoutEffort, ScriptEffort, Search,
};
use std::alloc::{AllocError, Global};
use std::test::Fail;

// Without rounds, so that the master has to run.
const NO_ASCENT: AscentEffort = AscentEffort {
    rounds: 0,
    step: 256,
    block: 10,
    looks: 1,
};

const NO_SEARCH: RebuildEffort = RebuildEffort {
    looks_a_task: 0,
    seed: 0,
};

const NO_SCRIPT: ScriptEffort = ScriptEffort {
    programs_a_step: 0,
    most_programs: 0,
    pricings_a_step: 0,
    pivots: 0,
    rounds: 0,
};

pub const NO_ROUNDS: Effort = Effort {
    iterations: 0,
    root: NO_ASCENT,
    root_of_many: NO_ASCENT,
    rebuild: NO_SEARCH,
    again: NO_ASCENT,
    rebuild_again: NO_SEARCH,
    rehearsal: NO_SCRIPT,
    below: NO_ASCENT,
    scout: ScoutEffort {
        pivots: 0,
        rounds: 0,
        routes: 0,
    },
    near: NO_SEARCH,
};

/// Bound, best, steps left and open leaves after at most three steps, each at the youngest or at the oldest open leaf.
fn searched(
    alloc: Global,
    instance: &Instance,
    effort: Effort,
    youngest: bool,
    pivots: u32,
) -> Result<(u32, u32, u32, usize), AllocError> {
    let mut columns = VecColumns::new(alloc);
    let mut search = Search::new(alloc, instance, 3, None, effort)?;
    for _ in 0..3 {
        let len = search.open_len();
        if search.left() == 0 || search.bound() >= search.best() || len == 0 {
            break;
        }
        let key = search.open_key(if youngest { len - 1 } else { 0 });
        search.step_with(key, &mut columns, pivots)?;
    }
    Ok((
        search.bound(),
        search.best(),
        search.left(),
        search.open_len(),
    ))
}

#[test]
fn any_order_comes_to_the_optimum(rt: HostRuntime) -> Result<(), Fail> {
    let instance = hardly_overlapping(rt.alloc(), 480)?;
    for youngest in [false, true] {
        let (bound, best, _, _) = searched(rt.alloc(), &instance, NO_ROUNDS, youngest, 20_000)?;
        assert_eq!(rt; (bound, best), (1, 1));
        let (bound, best, _, _) = searched(rt.alloc(), &instance, DAY_EFFORT, youngest, 20_000)?;
        assert_eq!(rt; (bound, best), (1, 1));
    }
    Ok(())
}

#[test]
fn without_pivots_nodes_are_split(rt: HostRuntime) -> Result<(), Fail> {
    let instance = hardly_overlapping(rt.alloc(), 480)?;
    let (bound, best, left, open) = searched(rt.alloc(), &instance, NO_ROUNDS, false, 0)?;
    assert!(rt; bound == best || left == 0);
    assert!(rt; open > 0 || bound == best);
    Ok(())
}
