// Sheets with known lines, and sinks that fail.
use crew_fixtures::{gate_builder, hardly_overlapping, task, team, text_of, two_at_once};
use crew_instance::Instance;
use crew_io::sink::MemSink;
use crew_terms::Task;
use price_run::{Squeezed, squeeze};
use sheet_write::{PutFault, write_sheet};
use std::alloc::Global;
use std::fmt::Debug;
use std::process::Abort;
use std::test::Fail;

/// Ends the test where the two differ, and tells both.
fn same<T: PartialEq + Debug>(rt: &impl Abort, told: &T, wanted: &T) {
    assert_eq!(rt; told, wanted);
}

/// Writes the sheet of what a run handed out to a sink with so much room. Its node budget is 3.
fn put(
    alloc: Global,
    day: &Instance,
    got: &Squeezed,
    room: usize,
) -> Result<(MemSink, Result<(), PutFault>), Fail> {
    let mut out = MemSink::new(alloc, room, 50, Vec::new(alloc))?;
    if got.at > 1000 || got.at as usize > got.trace.len() {
        return Ok((out, Err(PutFault::OutOfMemory)));
    }
    let told = write_sheet(alloc, &mut out, day, 3, got);
    Ok((out, told))
}

/// Ends the test where the sheet of a run of so many steps is not these lines.
fn writes(
    rt: &impl Abort,
    alloc: Global,
    day: &Instance,
    steps: u32,
    lines: &[&[u8]],
) -> Result<(), Fail> {
    if steps > 1000 {
        return Ok(());
    }
    let text = text_of(alloc, lines)?;
    let got = squeeze(alloc, day, steps)?;
    let (out, told) = put(alloc, day, &got, text.len())?;
    same(rt, &told, &Ok(()));
    same(rt, &out.got(), &text.as_slice());
    Ok(())
}

const JOINT: &[&[u8]] = &[
    b"crew squeeze 1",
    b"size 2 1 2 3",
    b"place BASE",
    b"place G1",
    b"travel 0 10",
    b"travel 10 0",
    b"team T1 0 410 460",
    b"team T2 0 440 490",
    b"task J 1 420 480 30 2",
    b"frozen 0",
    b"bound 1",
    b"clock 0 0 0 0 0 0 0 0 0 0 0 0 0 0 0 0 0 0 0 0 0 0 0 0 0 0 0 0 0 0 0 0 0 0 0 0 0 0 0 0 0 0 0 0 0 0 0 0 0 0 0 0 0 0 0 0 0 0 0 0 0 0",
    b"worth 0",
    b"steps 0 420 0",
    b"worth 0",
    b"steps 0 450 0",
    b"end",
];

/// No minute has enough teams for the joint task, which has a price for each minute.
#[test]
fn joint_tasks_have_clocks(rt: HostRuntime) -> Result<(), Fail> {
    let day = hardly_overlapping(rt.alloc(), 480)?;
    writes(&rt, rt.alloc(), &day, 0, JOINT)
}

const ONE_STEP: &[&[u8]] = &[
    b"crew squeeze 1",
    b"size 1 2 2 3",
    b"place BASE",
    b"place G1",
    b"travel 0 10",
    b"travel 10 0",
    b"team T1 0 360 840",
    b"task A 1 420 420 30 1",
    b"task B 1 420 420 30 1",
    b"frozen 0",
    b"bound 1",
    b"price 0 210000000",
    b"price 1 210000000",
    b"worth 210000000",
    b"steps 0 420 210000000",
    b"steps 1 420 210000000",
    b"end",
];

/// One team can do one of two tasks.
#[test]
fn other_tasks_have_one_price(rt: HostRuntime) -> Result<(), Fail> {
    let day = two_at_once(rt.alloc())?;
    writes(&rt, rt.alloc(), &day, 1, ONE_STEP)
}

const FROZEN: &[&[u8]] = &[
    b"crew squeeze 1",
    b"size 2 1 2 3",
    b"place BASE",
    b"place G1",
    b"travel 0 10",
    b"travel 10 0",
    b"team T1 0 360 840",
    b"team T2 0 360 840",
    b"task J 1 420 450 30 2",
    b"frozen 1",
    b"keep 0 430 0 1",
    b"bound 0",
    b"clock 0 0 0 0 0 0 0 0 0 0 0 0 0 0 0 0 0 0 0 0 0 0 0 0 0 0 0 0 0 0 0 0",
    b"worth 0",
    b"steps 0 430 0",
    b"worth 0",
    b"steps 0 430 0",
    b"end",
];

/// A frozen joint task has the prices of its whole window, and its teams have a potential at its one minute.
#[test]
fn frozen_tasks_have_one_minute(rt: HostRuntime) -> Result<(), Fail> {
    let joint = Task {
        teams: 2,
        ..task(b"J")?
    };
    let mut day = gate_builder(rt.alloc(), &[team(b"T1")?, team(b"T2")?], &[joint])?;
    day.freeze(0, 430, &[0, 1])?;
    let frozen = day.finish()?;
    writes(&rt, rt.alloc(), &frozen, 0, FROZEN)
}

/// Where the sink has less room than the sheet, a front of it is written, and the fault is told.
#[test]
fn a_full_sink_has_a_front(rt: HostRuntime) -> Result<(), Fail> {
    let text = text_of(rt.alloc(), ONE_STEP)?;
    let day = two_at_once(rt.alloc())?;
    let got = squeeze(rt.alloc(), &day, 1)?;
    for room in 0..text.len() {
        let (out, told) = put(rt.alloc(), &day, &got, room)?;
        same(&rt, &told, &Err(PutFault::WriteFault));
        same(
            &rt,
            &(out.got().len() == room && text.starts_with(out.got())),
            &true,
        );
    }
    Ok(())
}
