// A hundred thousand columns of one team that visit the same tasks.
ghost use Rattle.std.specs.Prelude.{◌<◌, All};
ghost use Rattle.crew_terms.specs.declared.TheConstants.{MOST_TASKS};

use crate::asserts::same;
use bumpalo::Bump;
use column_arena::{ArenaColumns, Columns, VecColumns, legal_in};
use crew_fixtures::{two_at_once, visit};
use crew_terms::Visit;
use node_limits::Limits;
use std::alloc::Global;
use std::process::Abort;
use std::test::Fail;

const MANY: u32 = 100_000;

/// The visits of the column with the number, all of one team and to few tasks: no two are equal.
fn tour(n: u32) -> [Visit; 4]
    ensures { All (λ v. v.task < MOST_TASKS) result }
{
    [
        visit(0, n % 400),
        visit(1, n / 400),
        visit(0, n % 7),
        visit(2, 420),
    ]
}

fn assert_many<C: Columns>(rt: &impl Abort, alloc: Global, columns: &mut C) -> Result<(), Fail> {
    for n in 0..MANY {
        assert!(rt; columns.add(0, &tour(n))? == n as usize);
    }
    for n in 0..MANY / 10 {
        assert!(rt; columns.add(0, &tour(n))? == n as usize);
    }
    same(rt, &columns.using(0, 1).len(), &(MANY as usize));
    columns.add(0, &[visit(1, 420)])?;
    let day = two_at_once(alloc)?;
    let mut out = Vec::new(alloc);
    legal_in(&Limits::root(alloc, &day)?, columns, &mut out)?;
    same(rt, &out.as_slice(), &[MANY as usize].as_slice());
    Ok(())
}

#[test]
fn a_hundred_thousand_columns_are_kept(rt: HostRuntime) -> Result<(), Fail> {
    let alloc = rt.alloc();
    let arena = Bump::new(alloc);
    assert_many(&rt, alloc, &mut VecColumns::new(alloc))?;
    assert_many(&rt, alloc, &mut ArenaColumns::new(alloc, &arena))
}
