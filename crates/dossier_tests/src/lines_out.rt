// Lines that are written, and an instance as lines.
use crate::asserts::{holds_at, same, same_at};
use cert_write::write_instance;
use crew_fixtures::{gate_builder, task, team, text_of};
use crew_instance::Instance;
use crew_io::sink::{MemSink, WriteFault};
use crew_terms::{Task, Team};
use line_out::{Part, put_line};
use std::alloc::Global;
use std::test::Fail;

#[test]
fn writes_a_line(rt: HostRuntime) -> Result<(), Fail> {
    let mut out = MemSink::new(rt.alloc(), 64, 3, Vec::new(rt.alloc()))?;
    let parts = [Part::Word(b"size"), Part::Number(1), Part::Number(400)];
    same(&rt, &put_line(&mut out, &parts), &Ok(()));
    same(&rt, &out.got(), &b"size 1 400\n".as_slice());
    Ok(())
}

#[test]
fn writes_a_long_line(rt: HostRuntime) -> Result<(), Fail> {
    let parts = [Part::Number(1_000_000_000_000_000_000); 7];
    let mut line = Vec::new(rt.alloc());
    for n in 0..7 {
        line.extend_from_slice(b"1000000000000000000")?;
        line.push(if n < 6 { b' ' } else { b'\n' })?;
    }
    let mut out = MemSink::new(rt.alloc(), 200, 50, Vec::new(rt.alloc()))?;
    same(&rt, &put_line(&mut out, &parts), &Ok(()));
    same(&rt, &out.got(), &line.as_slice());
    let mut out = MemSink::new(rt.alloc(), 130, 50, Vec::new(rt.alloc()))?;
    same(&rt, &put_line(&mut out, &parts), &Err(WriteFault));
    same(
        &rt,
        &(out.got().len() == 130 && line.starts_with(out.got())),
        &true,
    );
    Ok(())
}

#[test]
fn tells_a_fault_in_midline(rt: HostRuntime) -> Result<(), Fail> {
    let mut out = MemSink::new(rt.alloc(), 6, 3, Vec::new(rt.alloc()))?;
    let parts = [Part::Word(b"size"), Part::Number(1), Part::Number(400)];
    same(&rt, &put_line(&mut out, &parts), &Err(WriteFault));
    same(&rt, &out.got(), &b"size 1".as_slice());
    Ok(())
}

/// An instance with two ways of different lengths, and with skills.
fn skilled_instance(alloc: Global) -> Result<Instance, Fail> {
    let team = Team {
        skills: 1 << 63 | 1,
        ..team(b"T1")?
    };
    let task = Task {
        teams: 2,
        skills: 1 << 7,
        ..task(b"A")?
    };
    let mut day = gate_builder(alloc, &[team], &[task])?;
    day.travel(1, 0, 15)?;
    Ok(day.finish()?)
}

const LINES: &[&[u8]] = &[
    b"size 1 1 2 5",
    b"place BASE",
    b"place G1",
    b"travel 0 10",
    b"travel 15 0",
    b"team T1 0 360 840 0 63",
    b"task A 1 420 450 30 2 7",
];

#[test]
fn writes_an_instance(rt: HostRuntime) -> Result<(), Fail> {
    let alloc = rt.alloc();
    let instance = skilled_instance(alloc)?;
    let text = text_of(alloc, LINES)?;
    let mut out = MemSink::new(alloc, 200, 3, Vec::new(alloc))?;
    same(&rt, &write_instance(&mut out, &instance, 5), &Ok(()));
    same(&rt, &out.got(), &text.as_slice());
    for room in 0..text.len() {
        let mut out = MemSink::new(alloc, room, 3, Vec::new(alloc))?;
        same_at(
            &rt,
            &write_instance(&mut out, &instance, 5),
            &Err(WriteFault),
            &room,
        );
        holds_at(
            &rt,
            out.got().len() == room && text.starts_with(out.got()),
            &room,
        );
    }
    Ok(())
}
