// What `explain` answers and writes.
use crate::answers::{answer, assert_status, assert_text};
use desk_cli::status::Status;
use std::test::Fail;

#[test]
fn nothing_is_wrong(rt: HostRuntime) -> Result<(), Fail> {
    let (outcome, text) = answer(rt.alloc(), &["explain"], b"place,BASE\nplan,1\n", &[], &[])?;
    assert_status(&rt, &outcome, Status::Done);
    assert_text(&rt, &text, b"apply would refuse nothing\n");
    Ok(())
}

#[test]
fn something_is_wrong(rt: HostRuntime) -> Result<(), Fail> {
    let day = b"place,BASE\nteam,T1,BASE,06:00,7:00,\n";
    let (outcome, text) = answer(rt.alloc(), &["explain"], day, &[], &[])?;
    assert_status(&rt, &outcome, Status::No);
    assert!(rt; outcome.refusal.is_none());
    assert_text(
        &rt,
        &text,
        b"line 2: team T1, until \"7:00\": no clock time; write 07:00
the day has no record plan: nothing will be planned
apply would say: refused 2 Spelling 4
",
    );
    Ok(())
}
