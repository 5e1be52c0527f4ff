// What `crew rosters` answers and writes.
use crate::answers::{answer, assert_told, rosters};
use crew_cli::run::Status;
use crew_fixtures::dossiers::{ONE_TASK, TOGETHER, WITH_POOL};
use crew_fixtures::{joined, text_of, with_line};
use std::test::Fail;

/// The roster of the dossier with a pool: one team, two tasks at the same minute.
const ONE_LEFT: &[u8] = b"roster 1 2
team T1 06:00 14:00
  07:00 07:30 A G1
open B
";

/// The roster of the dossier with a task of two teams.
const BOTH: &[u8] = b"roster 0 1
team T1 06:00 14:00
  07:00 07:30 J G1 with T2
team T2 06:00 14:00
  07:00 07:30 J G1 with T1
";

#[test]
fn a_roster_for_each_dossier(rt: HostRuntime) -> Result<(), Fail> {
    let mut input = text_of(rt.alloc(), WITH_POOL)?;
    let told = rosters(rt.alloc(), input.clone()?)?;
    assert_told(&rt, &told, Status::Done, ONE_LEFT);
    input.extend_from_slice(&text_of(rt.alloc(), TOGETHER)?)?;
    let told = rosters(rt.alloc(), input)?;
    let both = joined(rt.alloc(), &[ONE_LEFT, BOTH])?;
    assert_told(&rt, &told, Status::Done, &both);
    Ok(())
}

#[test]
fn the_no_line_is_that_of_a_check(rt: HostRuntime) -> Result<(), Fail> {
    let low = with_line(rt.alloc(), WITH_POOL, 20, b"phi 1 839999999")?;
    let told = rosters(rt.alloc(), low.clone()?)?;
    assert_told(&rt, &told, Status::No, b"no 20 Potential 0 1\n");
    let behind = joined(rt.alloc(), &[&text_of(rt.alloc(), TOGETHER)?, &low])?;
    let told = rosters(rt.alloc(), behind)?;
    let lines = joined(rt.alloc(), &[BOTH, b"no 35 Potential 0 1\n"])?;
    assert_told(&rt, &told, Status::No, &lines);
    let told = rosters(rt.alloc(), Vec::new(rt.alloc()))?;
    assert_told(&rt, &told, Status::No, b"no 1 End\n");
    Ok(())
}

#[test]
fn a_write_that_fails_leaves_a_front(rt: HostRuntime) -> Result<(), Fail> {
    let input = text_of(rt.alloc(), ONE_TASK)?;
    let told = answer(rt.alloc(), &["rosters"], input, &[], &[3])?;
    assert_told(&rt, &told, Status::WriteFault, b"roster 0 1\n");
    Ok(())
}
