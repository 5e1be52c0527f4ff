// What is written of late work.

use crate::asserts::same;
use crew_fixtures::{Job, far_gates, is_plan_of, plan_of};
use crew_instance::Instance;
use crew_io::sink::MemSink;
use crew_terms::PlanVerdict;
use delay_print::put_delays;
use delay_wave::{Late, are_lates, wave};
use plan_check::check_plan;
use std::alloc::Global;
use std::test::Fail;

/// What is written where these jobs are the plan and these tasks end late, in as many bytes as there is room for, and
/// whether all of it was written.
fn put(
    alloc: Global,
    room: usize,
    instance: &Instance,
    jobs: &[Job<'_>],
    lates: &[Late],
) -> Result<(MemSink, bool), Fail> {
    let mut sink = MemSink::new(alloc, room, 16, Vec::new(alloc))?;
    if instance.tasks() > 16 {
        return Err("too many tasks")?;
    }
    let plan = plan_of(alloc, instance.tasks(), jobs)?;
    if !is_plan_of(instance, &plan) {
        return Err("a plan of another instance")?;
    }
    let PlanVerdict::Legal = check_plan(instance, &plan) else {
        return Err("not legal")?;
    };
    if !are_lates(&plan, lates) {
        return Err("no late tasks of the plan")?;
    }
    let waits = wave(alloc, instance, &plan, lates)?;
    let whole = put_delays(&mut sink, instance, &plan, &waits).is_ok();
    Ok((sink, whole))
}

/// A team's three tasks at three gates, one after the other.
const ROUND: [Job<'static>; 3] = [(0, 420, &[0]), (1, 440, &[0]), (2, 460, &[0])];

const ALL_LATE: &[u8] = b"wave 2 3
delay X 440 445 A X
delay C 460 465 A X C
";

#[test]
fn tells_each_chain(rt: HostRuntime) -> Result<(), Fail> {
    let instance = far_gates(rt.alloc())?;
    let lates = [Late { task: 0, end: 435 }];
    let (sink, whole) = put(rt.alloc(), 128, &instance, &ROUND, &lates)?;
    same(&rt, &whole, &true);
    same(&rt, &sink.got(), &ALL_LATE);
    Ok(())
}

const NONE_LATE: &[u8] = b"wave 0 2\n";

#[test]
fn tells_none_where_none_is_late(rt: HostRuntime) -> Result<(), Fail> {
    let instance = far_gates(rt.alloc())?;
    let (sink, whole) = put(rt.alloc(), 128, &instance, &ROUND[..2], &[])?;
    same(&rt, &whole, &true);
    same(&rt, &sink.got(), &NONE_LATE);
    Ok(())
}

#[test]
fn fault_leaves_a_front(rt: HostRuntime) -> Result<(), Fail> {
    let instance = far_gates(rt.alloc())?;
    let lates = [Late { task: 0, end: 435 }];
    let (sink, whole) = put(rt.alloc(), 20, &instance, &ROUND, &lates)?;
    same(&rt, &whole, &false);
    same(&rt, &sink.got(), &&ALL_LATE[..20]);
    Ok(())
}
