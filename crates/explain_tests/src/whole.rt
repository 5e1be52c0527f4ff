// Whole days.
use crate::answers::{assert_told, told_of};
use crew_fixtures::Shown;
use day_explain::Ended;
use std::test::Fail;

#[test]
fn nothing_is_wrong(rt: HostRuntime) -> Result<(), Fail> {
    let (ended, told) = told_of(
        rt.alloc(),
        b"place,BASE\nteam,T,BASE,06:00,14:00,\nplan,1\n",
    )?;
    assert!(rt; ended == Ended::Fine);
    assert!(rt;
        told.as_slice() == b"apply would refuse nothing\n".as_slice(),
        "{:?}",
        Shown(&told)
    );
    Ok(())
}

#[test]
fn a_remark_is_no_fault(rt: HostRuntime) -> Result<(), Fail> {
    let (ended, told) = told_of(
        rt.alloc(),
        b"place,BASE\n\nnow,07:00\nteam,T,BASE,06:00,14:00,\n",
    )?;
    assert!(rt; ended == Ended::Fine);
    let text: &[u8] = b"the day has no record plan: nothing will be planned
line 4: behind a record now, day may refuse a change for work that has begun, as FrozenWork; then write thaw,TASK first, or shift,TEAM,FROM,NOW
apply would refuse nothing
";
    assert!(rt; told.as_slice() == text, "{:?}", Shown(&told));
    Ok(())
}

#[test]
fn a_sheet_with_headings(rt: HostRuntime) -> Result<(), Fail> {
    assert_told(
        &rt,
        rt.alloc(),
        b"kind,name,home,from,until,skills

place,BASE
place;A12
place,S04,,
team,RAMP1,BASE,22:00,06:00,
team,RAMP2,BASE,7:00,15:00,
team,RAMP3,BASE,7:00,\"15:00
\",
task,LH1/unload,a12,06:10,06:20,35,1,
plan,200
",
        b"line 1: \"kind\" is no record; a heading line has to go
line 4: the fields are separated by semicolons; write commas
line 5: 2 fields too many, all empty
line 6: shift 22:00 to 06:00 ends before it begins; an hour of the next day is written as 30:00
line 7: team RAMP2, from \"7:00\": no clock time; write 07:00
line 8: a quote is opened here and closed in line 9
line 10: task LH1/unload, place \"a12\": no such place
apply would say: refused 1 Kind
",
    )
}
