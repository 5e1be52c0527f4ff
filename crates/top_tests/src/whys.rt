// What `crew why` answers and writes.
use crate::answers::{answer, assert_told};
use crew_cli::run::Status;
use crew_fixtures::dossiers::{TOGETHER, WITH_POOL};
use crew_fixtures::{joined, text_of, with_line};
use std::test::Fail;

/// What is in the way of the open task of the dossier with a pool: its one team is busy with the other task.
const BUSY: &[u8] = b"why 1 2
open B 1
  07:00 07:00 free 0 T1=busy:A
  none fits
";

#[test]
fn what_is_in_the_way_for_each_dossier(rt: HostRuntime) -> Result<(), Fail> {
    let alloc = rt.alloc();
    let input = joined(
        alloc,
        &[&text_of(alloc, WITH_POOL)?, &text_of(alloc, TOGETHER)?],
    )?;
    let told = answer(alloc, &["why"], input, &[], &[])?;
    let both = joined(alloc, &[BUSY, b"why 0 1\n"])?;
    assert_told(&rt, &told, Status::Done, &both);
    Ok(())
}

#[test]
fn the_no_line_of_why_is_that_of_a_check(rt: HostRuntime) -> Result<(), Fail> {
    let low = with_line(rt.alloc(), WITH_POOL, 20, b"phi 1 839999999")?;
    let told = answer(rt.alloc(), &["why"], low, &[], &[])?;
    assert_told(&rt, &told, Status::No, b"no 20 Potential 0 1\n");
    Ok(())
}
