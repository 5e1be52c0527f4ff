// Each kind of fault.
use crate::answers::assert_told;
use std::test::Fail;

#[test]
fn words_of_fields(rt: HostRuntime) -> Result<(), Fail> {
    assert_told(
        &rt,
        rt.alloc(),
        b"place,A 12
default_travel,x
default_travel,3000
team,T1,A12,06:00,49:00,
team,T2,A12,late,14:00,
team,T3,A12,06:00,14:00,70
team,T4,A12,06:00,14:00,0;2
longer,T,+20
plan,2e3
now,7
",
        b"line 1: place, name \"A 12\": no name; write A_12
line 2: default_travel, minutes \"x\": no whole number; write 0 to 2880
line 3: default_travel, minutes \"3000\": out of range; write 0 to 2880
line 4: team T1, until \"49:00\": past 48:00, the last time of a day
line 5: team T2, from \"late\": no clock time; write one as 07:00
line 6: team T3, skills \"70\": out of range; skills are 0 to 63
line 7: team T4, skills \"0;2\": no list of skills; write 0 2
line 8: longer T, duration \"+20\": no whole number; write 20
line 9: plan, nodes \"2e3\": no whole number; write 0 to 100000
line 10: now, time \"7\": no clock time; write 07:00
apply would say: refused 1 Spelling 1
",
    )
}

#[test]
fn names_of_things(rt: HostRuntime) -> Result<(), Fail> {
    assert_told(
        &rt,
        rt.alloc(),
        b"place,A12
place,A12
default_travel,5
team,T1,a12,06:00,14:00,
task,J1,B07,06:00,06:10,20,1,
task,J2,B07,06:00,06:10,20,1,
place,B07
task,J3,B07,06:00,06:10,20,1,
cancel,J3
cancel,J3
sick,T1
plan,1
",
        b"line 2: place A12: a place of line 1 has this name
line 4: team T1, home \"a12\": no such place; there is A12
line 5: task J1, place \"B07\": no such place; its record comes later, in line 7
line 10: cancel, task \"J3\": no such task; it is gone since line 9
line 11: sick, team \"T1\": no such team; its record in line 4 is refused
apply would say: refused 2 SameName
",
    )
}

#[test]
fn numbers_and_kinds(rt: HostRuntime) -> Result<(), Fail> {
    assert_told(
        &rt,
        rt.alloc(),
        b"Place,A12
place,A12
place,S04
place,S05
task,J1,A12,10:00,09:00,20,9,
task,J2,A12,06:00,23:00,20,1
task,J3,A12,06:00,23:00,20,1,
sick,T1,50,06:00
# teams
plan,1
place,\"B07
place,C1
",
        b"line 1: \"Place\" is no record; write place
line 5: window 10:00 to 09:00 ends before it begins; an hour of the next day is written as 33:00
line 5: task J1, teams \"9\": out of range; write 1 to 8
line 6: 1 field too few; write task,name,place,earliest,latest,duration,teams,skills
line 7: window 06:00 to 23:00 is wider than 720 minutes
line 8: 2 fields too many; write sick,team
line 9: \"# teams\" is no record; it begins with no word for one, as place, team or task
line 10: no travel time from A12 to S04 (5 more: A12 to S05, ..)
line 11: a quote is opened here and never closed
apply would say: refused 1 Kind
",
    )
}
