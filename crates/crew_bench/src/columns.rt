// Many columns in an arena, and what is asked of them.
ghost use Rattle.std.specs.Prelude.{◌<◌, length};

use crate::figures::Figures;
use bumpalo::Bump;
use column_arena::{ArenaColumns, Columns, legal_in};
use crew_instance::Instance;
use crew_terms::{Pair, Visit};
use node_limits::Limits;
use std::alloc::{AllocError, Global};

/// So many columns are added before they are asked.
const MANY: u32 = 100_000;

/// Of each team so many tasks apart one is forbidden.
const APART: u32 = 10;

/// Adds the column with this number, where there are teams and tasks: it visits two tasks, one at its first minute and one
/// at its last, the earlier one first. No two of the first (teams x tasks x tasks) numbers have the same column, where windows
/// are longer than a minute.
fn add_one(
    columns: &mut ArenaColumns<'_>,
    instance: &Instance,
    number: u32,
) -> Result<(), AllocError> {
    let teams = instance.teams() as u32;
    let tasks = instance.tasks() as u32;
    if teams == 0 || tasks == 0 {
        return Ok(());
    }
    let team = number % teams;
    let rest = number / teams;
    let first = rest % tasks;
    let second = (first + 1 + rest / tasks % tasks) % tasks;
    let early = Visit {
        task: first,
        start: instance.task(first).earliest,
    };
    let late = Visit {
        task: second,
        start: instance.task(second).latest,
    };
    if early.start <= late.start {
        columns.add(team, &[early, late])?;
    } else {
        columns.add(team, &[late, early])?;
    }
    Ok(())
}

/// The columns with numbers below this one, in the arena.
fn filled<'a>(
    alloc: Global,
    arena: &'a Bump,
    instance: &Instance,
    count: u32,
) -> Result<ArenaColumns<'a>, AllocError> {
    let mut columns = ArenaColumns::new(alloc, arena);
    for number in 0..count {
        add_one(&mut columns, instance, number)?;
    }
    Ok(columns)
}

/// Adds so many columns.
pub fn added(alloc: Global, instance: &Instance, count: u32) -> Result<Figures, AllocError> {
    let arena = Bump::new(alloc);
    let columns = filled(alloc, &arena, instance, count)?;
    Ok(Figures::Columns {
        added: count,
        held: columns.len(),
    })
}

/// Adds to the sum how many numbers of columns there are at each team and task.
fn count_numbers(columns: &ArenaColumns<'_>, instance: &Instance, sum: u64) -> u64 {
    let mut sum = sum;
    for k in 0..instance.teams() as u32 {
        for j in 0..instance.tasks() as u32 {
            sum = sum.saturating_add(columns.using(k, j).len() as u64);
        }
    }
    sum
}

/// Asks a hundred thousand columns for those of each team and task, so many times.
pub fn asked(alloc: Global, instance: &Instance, times: u32) -> Result<Figures, AllocError> {
    let arena = Bump::new(alloc);
    let columns = filled(alloc, &arena, instance, MANY)?;
    let mut numbers = 0;
    for _ in 0..times {
        numbers = count_numbers(&columns, instance, numbers);
    }
    Ok(Figures::Using { times, numbers })
}

/// Forbids the pair, where nothing is said of it; tells whether it did.
fn forbid(limits: &mut Limits<'_>, k: u32, j: u32) -> Result<bool, AllocError> {
    let instance = limits.instance();
    if k as usize >= instance.teams() || j as usize >= instance.tasks() {
        return Ok(false);
    }
    match limits.pair(k, j) {
        Pair::Free => {}
        Pair::Forbidden | Pair::Required => return Ok(false),
    }
    limits.reserve(1)?;
    limits.set_pair(k, j, Pair::Forbidden);
    Ok(true)
}

/// Forbids of each team's pairs one in ten, and tells how many.
fn forbid_some(limits: &mut Limits<'_>) -> Result<u32, AllocError> {
    let teams = limits.instance().teams() as u32;
    let tasks = limits.instance().tasks() as u32;
    let mut count = 0u32;
    for k in 0..teams {
        for j in 0..tasks {
            if (k + j) % APART == 0 && forbid(limits, k, j)? {
                count = count.saturating_add(1);
            }
        }
    }
    Ok(count)
}

/// Asks so many times which of a hundred thousand columns are routes where one pair in ten is forbidden.
pub fn filtered(alloc: Global, limits: &mut Limits<'_>, times: u32) -> Result<Figures, AllocError> {
    let arena = Bump::new(alloc);
    let columns = filled(alloc, &arena, limits.instance(), MANY)?;
    let forbidden = forbid_some(limits)?;
    let mut legal = Vec::new(alloc);
    for _ in 0..times {
        legal_in(limits, &columns, &mut legal)?;
    }
    Ok(Figures::Legal {
        times,
        columns: columns.len(),
        forbidden,
        legal: legal.len(),
    })
}
