// Rosters of two plans, and a fault in the middle of one.

use crate::asserts::same;
use crew_fixtures::{is_plan_of, joint_task, plan_of, two_at_once};
use crew_instance::{Instance, Plan};
use crew_io::sink::{MemSink, WriteFault};
use crew_terms::PlanVerdict;
use plan_check::check_plan;
use roster_print::rosters;
use std::alloc::Global;
use std::test::Fail;

/// The roster of a plan, in as many bytes as there is room for, and whether all of it was written.
fn put(
    alloc: Global,
    room: usize,
    instance: &Instance,
    plan: &Plan,
) -> Result<(MemSink, bool), Fail> {
    let mut sink = MemSink::new(alloc, room, 16, Vec::new(alloc))?;
    if !is_plan_of(instance, plan) {
        return Err(Fail::new("no plan of the instance"));
    }
    let PlanVerdict::Legal = check_plan(instance, plan) else {
        return Err(Fail::new("not legal"));
    };
    let whole = rosters(&mut sink, instance, plan).is_ok();
    Ok((sink, whole))
}

const ONE_OF_TWO: &[u8] = b"roster 1 2
team T1 06:00 14:00
  07:00 07:30 A G1
open B
";

#[test]
fn tells_who_does_what(rt: HostRuntime) -> Result<(), Fail> {
    let instance = two_at_once(rt.alloc())?;
    let plan = plan_of(rt.alloc(), 2, &[(0, 420, &[0])])?;
    let (sink, whole) = put(rt.alloc(), 128, &instance, &plan)?;
    same(&rt, &whole, &true);
    same(&rt, &sink.got(), &ONE_OF_TWO);
    Ok(())
}

const TOGETHER: &[u8] = b"roster 0 1
team T1 06:00 14:00
  07:00 07:30 J G1 with T2
team T2 06:00 14:00
  07:00 07:30 J G1 with T1
";

#[test]
fn tells_with_whom(rt: HostRuntime) -> Result<(), Fail> {
    let instance = joint_task(rt.alloc())?;
    let plan = plan_of(rt.alloc(), 1, &[(0, 420, &[0, 1])])?;
    let (sink, whole) = put(rt.alloc(), 128, &instance, &plan)?;
    same(&rt, &whole, &true);
    same(&rt, &sink.got(), &TOGETHER);
    Ok(())
}

#[test]
fn fault_leaves_a_front(rt: HostRuntime) -> Result<(), Fail> {
    let instance = two_at_once(rt.alloc())?;
    let plan = plan_of(rt.alloc(), 2, &[(0, 420, &[0])])?;
    let (sink, whole) = put(rt.alloc(), 40, &instance, &plan)?;
    same(&rt, &whole, &false);
    same(&rt, &sink.got(), &&ONE_OF_TWO[..40]);
    Ok(())
}
