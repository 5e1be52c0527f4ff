// Days that are read: whole ones, each record at the ends of its ranges, and the first bad record.
use crate::asserts::{holds_at, same};
use crew_fixtures::{Shown, name};
use day_records::{Day, DayCause, Entry, Refused, read_day};
use field_table::{Cause, FieldFault};
use std::alloc::{AllocError, Global};
use std::test::Fail;

/// A day with CRLF line ends and a quoted field.
const QUOTED: &[u8] =
    b"place,BASE\r\nplace,G1\r\ntravel,BASE,G1,10\r\nteam,\"T1\",BASE,06:00,14:00,\r\ntask,A,G1,07:00,07:00,30,1,\r\ntask,B,G1,07:00,07:00,30,1,\r\nplan,1\r\ncancel,A\r\nmove,B,07:00,08:00\r\nplan,1\r\ncancel,A\r\n";

/// A day at a ramp.
const RAMP: &[u8] =
    b"place,BASE\nplace,A12\nplace,B07\ndefault_travel,12\nteam,RAMP1,BASE,05:00,13:00,0 2\nteam,RAMP2,BASE,05:00,13:00,0 2\nteam,CLEAN1,BASE,06:00,14:00,1\ntask,LH123/unload,A12,06:10,06:20,35,2,0\ntask,LH123/clean,A12,06:30,06:50,20,1,1\ntask,BA845/unload,B07,08:00,08:15,40,2,0\ntask,BA845/clean,B07,08:20,08:50,25,1,1\nplan,200\nmove,BA845/unload,06:30,06:45\nplan,200\n";

fn refused(number: u64, place: usize, cause: Cause) -> Option<Refused> {
    let cause = DayCause::Field(FieldFault { place, cause });
    Some(Refused { number, cause })
}

/// Whether the day has so many entries, and this stop.
fn is_day(day: &Day, count: usize, stop: Option<Refused>) -> bool {
    day.entries.as_slice().len() == count && day.stop == stop
}

#[test]
fn reads_entries_and_values(rt: HostRuntime) -> Result<(), Fail> {
    let alloc = rt.alloc();
    let day = read_day(
        alloc,
        b"place,BASE\r\nplace,G1\r\ntravel,BASE,G1,10\r\nteam,\"T1\",BASE,06:00,14:00,\r\nplan,1\r\nnow,07:10\r\nthaw,A\r\n",
    )?;
    let base = name(b"BASE")?;
    let gate = name(b"G1")?;
    let team = name(b"T1")?;
    let task = name(b"A")?;
    let entries = [
        Entry::Place { name: base },
        Entry::Place { name: gate },
        Entry::Travel {
            from: base,
            to: gate,
            minutes: 10,
        },
        Entry::Team {
            name: team,
            home: base,
            from: 360,
            until: 840,
            skills: 0,
        },
        Entry::Plan { nodes: 1 },
        Entry::Now { time: 430 },
        Entry::Thaw { task },
    ];
    same(&rt, &day.entries.as_slice(), &entries.as_slice());
    same(&rt, &day.stop.is_none(), &true);
    Ok(())
}

#[test]
fn lists_skills_in_any_order(rt: HostRuntime) -> Result<(), Fail> {
    let alloc = rt.alloc();
    let cases = [
        (b"team,T,B,06:00,14:00,".as_slice(), 0u64),
        (b"team,T,B,06:00,14:00,0 2", 5),
        (b"team,T,B,06:00,14:00,2 0 2", 5),
        (b"team,T,B,06:00,14:00,63 0", (1 << 63) + 1),
    ];
    for (text, set) in cases {
        let day = read_day(alloc, text)?;
        let entry = day.entries.as_slice().first().copied();
        same(
            &rt,
            &matches!(entry, Some(Entry::Team { skills, .. }) if skills == set),
            &true,
        );
    }
    Ok(())
}

#[test]
fn reads_whole_days(rt: HostRuntime) -> Result<(), Fail> {
    let alloc = rt.alloc();
    same(&rt, &is_day(&read_day(alloc, QUOTED)?, 11, None), &true);
    same(&rt, &is_day(&read_day(alloc, RAMP)?, 14, None), &true);
    same(&rt, &is_day(&read_day(alloc, b"")?, 0, None), &true);
    Ok(())
}

#[test]
fn stops_at_a_wrong_kind_or_count(rt: HostRuntime) -> Result<(), Fail> {
    let alloc = rt.alloc();
    let kind = Some(Refused {
        number: 1,
        cause: DayCause::Kind,
    });
    let cases = [
        (b"plaice,X\nplace,X\n".as_slice(), 0, kind),
        (b"thaws,A", 0, kind),
        (b"tha,A", 0, kind),
        (b"Now,07:10", 0, kind),
        (b"place\n", 0, refused(1, 1, Cause::Count)),
        (b"place,X,Y", 0, refused(1, 3, Cause::Count)),
        (b"now", 0, refused(1, 1, Cause::Count)),
        (b"now,07:10,07:20", 0, refused(1, 3, Cause::Count)),
        (b"thaw,A,B", 0, refused(1, 3, Cause::Count)),
    ];
    for (text, count, stop) in cases {
        let day = read_day(alloc, text)?;
        holds_at(&rt, is_day(&day, count, stop), &Shown(text));
    }
    Ok(())
}

#[test]
fn stops_at_a_misspelled_field(rt: HostRuntime) -> Result<(), Fail> {
    let alloc = rt.alloc();
    let cases = [
        (b"place,".as_slice(), 0, refused(1, 1, Cause::Spelling)),
        (
            b"place,A\nplace,G1\nplan,1\ntask,A,G1,07:60,08:00,30,1,\nplaice\n",
            3,
            refused(4, 3, Cause::Spelling),
        ),
        (
            b"team,T,B,06:00,14:00,0  1",
            0,
            refused(1, 5, Cause::Spelling),
        ),
        (
            b"team,T,B,06:00,14:00,64 x",
            0,
            refused(1, 5, Cause::Spelling),
        ),
        (
            b"plan,9223372036854775808",
            0,
            refused(1, 1, Cause::Spelling),
        ),
        (b"plan,1\nplace,\xff\xfe", 1, refused(2, 1, Cause::Spelling)),
        (b"now,7:10", 0, refused(1, 1, Cause::Spelling)),
        (b"now,430", 0, refused(1, 1, Cause::Spelling)),
        (b"thaw,", 0, refused(1, 1, Cause::Spelling)),
    ];
    for (text, count, stop) in cases {
        let day = read_day(alloc, text)?;
        holds_at(&rt, is_day(&day, count, stop), &Shown(text));
    }
    Ok(())
}

#[test]
fn stops_at_a_field_out_of_range(rt: HostRuntime) -> Result<(), Fail> {
    let alloc = rt.alloc();
    let cases = [
        (b"skill,T,64".as_slice(), 0, refused(1, 2, Cause::Range)),
        (b"task,A,G,07:00,08:00,0,1,", 0, refused(1, 5, Cause::Range)),
        (b"plan,100001", 0, refused(1, 1, Cause::Range)),
        (b"move,A,48:00,48:01", 0, refused(1, 3, Cause::Range)),
        (b"move,A,48:01,07:60", 0, refused(1, 2, Cause::Range)),
        (b"plan,9223372036854775807", 0, refused(1, 1, Cause::Range)),
        (b"now,48:01", 0, refused(1, 1, Cause::Range)),
    ];
    for (text, count, stop) in cases {
        let day = read_day(alloc, text)?;
        holds_at(&rt, is_day(&day, count, stop), &Shown(text));
    }
    Ok(())
}

#[test]
fn records_are_those_of_csv(rt: HostRuntime) -> Result<(), Fail> {
    let alloc = rt.alloc();
    let cases = [
        (b"\xef\xbb\xbfplan,1".as_slice(), 1, None),
        (b"plan,1\rplan,2\r\n\n\r\nplan,3\n", 3, None),
        (b"\"plan\",\"1\"\n\"place\",\"A\"", 2, None),
        (b"\nplan,1\n\nplan,x\n", 1, refused(2, 1, Cause::Spelling)),
        (b"plan, 1", 0, refused(1, 1, Cause::Spelling)),
    ];
    for (text, count, stop) in cases {
        let day = read_day(alloc, text)?;
        holds_at(&rt, is_day(&day, count, stop), &Shown(text));
    }
    Ok(())
}

/// What a field of a record is.
#[derive(Clone, Copy)]
enum Shape {
    Name,
    Minutes,
    Duration,
    Time,
    Count,
    Skill,
    Nodes,
    Skills,
}

/// The ends of the range of each shape.
fn good(shape: Shape) -> (&'static [u8], &'static [u8]) {
    match shape {
        Shape::Name => (b"N", b"abcdefghijklmnopqrstuvwxyz_.:/-9"),
        Shape::Minutes => (b"0", b"2880"),
        Shape::Duration => (b"1", b"2880"),
        Shape::Time => (b"00:00", b"48:00"),
        Shape::Count => (b"0", b"99"),
        Shape::Skill => (b"0", b"63"),
        Shape::Nodes => (b"0", b"100000"),
        Shape::Skills => (b"", b"63 0"),
    }
}

/// What lies past the ends of each shape's range; a name has no range.
fn out_of_range(shape: Shape) -> &'static [&'static [u8]] {
    match shape {
        Shape::Name => &[],
        Shape::Minutes => &[b"-1", b"2881"],
        Shape::Duration => &[b"0", b"2881"],
        Shape::Time => &[b"48:01", b"99:59"],
        Shape::Count => &[b"-1", b"100"],
        Shape::Skill => &[b"-1", b"64"],
        Shape::Nodes => &[b"-1", b"100001"],
        Shape::Skills => &[b"0 64", b"-1"],
    }
}

/// What spells nothing of each shape.
fn misspelled(shape: Shape) -> &'static [&'static [u8]] {
    match shape {
        Shape::Name => &[b"", b"abcdefghijklmnopqrstuvwxyz_.:/-98", b"a b"],
        Shape::Minutes => &[b"00"],
        Shape::Duration => &[b""],
        Shape::Time => &[b"7:00"],
        Shape::Count => &[b"+1"],
        Shape::Skill => &[b"06"],
        Shape::Nodes => &[b"1 "],
        Shape::Skills => &[b" 1"],
    }
}

/// Each kind of record, and what its fields are.
const KINDS: [(&[u8], &[Shape]); 17] = [
    (b"place", &[Shape::Name]),
    (b"travel", &[Shape::Name, Shape::Name, Shape::Minutes]),
    (b"route_time", &[Shape::Name, Shape::Name, Shape::Minutes]),
    (b"default_travel", &[Shape::Minutes]),
    (
        b"team",
        &[
            Shape::Name,
            Shape::Name,
            Shape::Time,
            Shape::Time,
            Shape::Skills,
        ],
    ),
    (
        b"task",
        &[
            Shape::Name,
            Shape::Name,
            Shape::Time,
            Shape::Time,
            Shape::Duration,
            Shape::Count,
            Shape::Skills,
        ],
    ),
    (b"cancel", &[Shape::Name]),
    (b"move", &[Shape::Name, Shape::Time, Shape::Time]),
    (b"longer", &[Shape::Name, Shape::Duration]),
    (b"needs", &[Shape::Name, Shape::Count]),
    (b"sick", &[Shape::Name]),
    (b"shift", &[Shape::Name, Shape::Time, Shape::Time]),
    (b"skill", &[Shape::Name, Shape::Skill]),
    (b"unskill", &[Shape::Name, Shape::Skill]),
    (b"plan", &[Shape::Nodes]),
    (b"now", &[Shape::Time]),
    (b"thaw", &[Shape::Name]),
];

/// A record with this value in the field with this number, from 1, and the least good value in the others.
fn record_with(
    alloc: Global,
    key: &[u8],
    shapes: &[Shape],
    place: usize,
    value: &[u8],
) -> Result<Vec<u8>, AllocError> {
    let mut text = key.to_vec(alloc)?;
    let mut number = 1u64;
    for shape in shapes {
        text.push(b',')?;
        let (least, _) = good(*shape);
        let field = if number == place as u64 { value } else { least };
        text.extend_from_slice(field)?;
        number = number.saturating_add(1);
    }
    Ok(text)
}

/// Whether the record is refused with this cause where the field with this number has each of these values.
fn refuses_each(
    alloc: Global,
    key: &[u8],
    shapes: &[Shape],
    place: usize,
    values: &[&[u8]],
    cause: Cause,
) -> Result<bool, AllocError> {
    for value in values {
        let text = record_with(alloc, key, shapes, place, value)?;
        if !is_day(&read_day(alloc, &text)?, 0, refused(1, place, cause)) {
            return Ok(false);
        }
    }
    Ok(true)
}

/// Whether the record is read where the field with this number has each good value, and refused where it has
/// each bad one.
fn has_ends(
    alloc: Global,
    key: &[u8],
    shapes: &[Shape],
    place: usize,
    shape: Shape,
) -> Result<bool, AllocError> {
    let (least, most) = good(shape);
    for value in [least, most] {
        let text = record_with(alloc, key, shapes, place, value)?;
        if !is_day(&read_day(alloc, &text)?, 1, None) {
            return Ok(false);
        }
    }
    let by_range = refuses_each(alloc, key, shapes, place, out_of_range(shape), Cause::Range)?;
    let by_spelling = refuses_each(
        alloc,
        key,
        shapes,
        place,
        misspelled(shape),
        Cause::Spelling,
    )?;
    Ok(by_range && by_spelling)
}

/// Whether this holds of each field of the record.
fn has_all_ends(alloc: Global, key: &[u8], shapes: &[Shape]) -> Result<bool, AllocError> {
    for (i, shape) in shapes.iter().enumerate() {
        if !has_ends(alloc, key, shapes, i + 1, *shape)? {
            return Ok(false);
        }
    }
    Ok(true)
}

#[test]
fn each_field_has_its_range(rt: HostRuntime) -> Result<(), Fail> {
    let alloc = rt.alloc();
    for (key, shapes) in KINDS {
        holds_at(&rt, has_all_ends(alloc, key, shapes)?, &Shown(key));
    }
    Ok(())
}

#[test]
fn each_kind_has_its_number_of_fields(rt: HostRuntime) -> Result<(), Fail> {
    let alloc = rt.alloc();
    for (key, shapes) in KINDS {
        let mut text = record_with(alloc, key, shapes, 0, b"")?;
        text.extend_from_slice(b",more")?;
        let stop = refused(1, shapes.len() + 2, Cause::Count);
        same(&rt, &is_day(&read_day(alloc, &text)?, 0, stop), &true);
        same(
            &rt,
            &is_day(&read_day(alloc, key)?, 0, refused(1, 1, Cause::Count)),
            &true,
        );
    }
    Ok(())
}
