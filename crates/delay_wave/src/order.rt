// The tasks of a plan in the order in which they are to begin.
ghost use Rattle.std.specs.Prelude.{IfOk, length};
ghost use Rattle.delay_wave.specs.Order.{AreAssigned, AreInOrder};

use crew_instance::{Plan, Turn};
use std::alloc::{AllocError, Global};

/// The assigned tasks with their planned starts.
fn assigned(alloc: Global, plan: &Plan) -> Result<Vec<Turn>, AllocError>
    ensures { IfOk result (λ turns. AreAssigned plan.now (length plan.now) turns.items) }
{
    let mut turns = Vec::with_capacity(alloc, plan.len())?;
    for task in 0..plan.len() as u32 {
        if let Some(start) = plan.start(task) {
            turns.push(Turn { start, task })?;
        }
    }
    Ok(turns)
}

/// The assigned tasks by their planned starts.
pub(crate) fn by_start(alloc: Global, plan: &Plan) -> Result<Vec<Turn>, AllocError>
    ensures { IfOk result (λ turns. AreInOrder plan.now turns.items) }
{
    let mut turns = assigned(alloc, plan)?;
    turns.sort_unstable_by_key(|turn| turn.start);
    Ok(turns)
}
