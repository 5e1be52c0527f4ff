// Lines that are read: good ones of each kind, and the first fault of others.
use crate::asserts::{holds_at, same, same_at};
use cert_format::{Expect, LineKind, read_line};
use crew_fixtures::Shown;
use field_table::Cuts;
use line_in::LineFault;
use std::process::Abort;
use std::test::Fail;

const ROUTE: Expect = Expect::Route { teams: 2, tasks: 3 };

const NODE: Expect = Expect::Node { teams: 2, tasks: 3 };

const KEEP: Expect = Expect::Keep { teams: 2, tasks: 3 };

const WHY: Expect = Expect::Why { tasks: 2 };

const SHARE: Expect = Expect::Share {
    columns: 3,
    whole: 4,
};

const SPARE: Expect = Expect::Spare { tasks: 2, whole: 4 };

/// A kind of line, and a good line of it.
type Good = (Expect, &'static [u8]);

const GOOD: &[Good] = &[
    (Expect::Form, b"crew dossier 1"),
    (Expect::Form, b"crew dossier 2"),
    (Expect::Frozen { most: 2 }, b"frozen 2"),
    (KEEP, b"keep 2 2880 0 1"),
    (WHY, b"why none"),
    (
        WHY,
        b"why loose 2 170141183460469231731687303715884105727 0",
    ),
    (
        WHY,
        b"why overflow 1 sub -170141183460469231731687303715884105728 1",
    ),
    (WHY, b"why spent 2"),
    (SHARE, b"share 2 4"),
    (SPARE, b"spare 0 4"),
    (
        Expect::Steps { task: 7 },
        b"steps 7 0 -9223372036854775808 2880 9223372036854775807",
    ),
    (Expect::Size, b"size 1 1 2 1"),
    (Expect::Place, b"place G1"),
    (Expect::Travel { places: 2 }, b"travel 0 10"),
    (Expect::Team { places: 2 }, b"team T1 0 360 840 0 63"),
    (Expect::Task { places: 2 }, b"task A 1 420 450 30 1"),
    (Expect::Pool, b"pool 0 9223372036854775807"),
    (ROUTE, b"route 1 2 2880 0 0"),
    (Expect::Plan { tasks: 1 }, b"plan 0 1"),
    (Expect::Job { teams: 1, tasks: 1 }, b"do 0 420 0"),
    (Expect::Tree, b"tree 0 0 1 0"),
    (NODE, b"window 2 2880"),
    (NODE, b"pair 1 2"),
    (NODE, b"leaf bare"),
    (NODE, b"leaf open"),
    (NODE, b"leaf closed"),
    (
        Expect::Price { tasks: 2 },
        b"price -840000000000000 840000000000000",
    ),
    (Expect::Price { tasks: 0 }, b"price"),
    (Expect::Extra { task: 7, count: 2 }, b"extra 7 -1 0"),
    (Expect::Worth, b"worth 9223372036854775807"),
    (
        Expect::Phi { task: 0, count: 2 },
        b"phi 0 -9223372036854775808 9223372036854775807",
    ),
    (Expect::End, b"end"),
];

/// Asserts that each line of the table is read.
fn reads_lines(rt: &impl Abort, cuts: &mut Cuts, table: &[Good]) {
    for (expect, line) in table {
        assert!(rt; line.len() < 100);
        let read = read_line(*expect, cuts.split(line));
        holds_at(rt, read.is_ok(), &Shown(line));
    }
}

#[test]
fn reads_each_kind(rt: HostRuntime) -> Result<(), Fail> {
    let mut cuts = Cuts::new(rt.alloc())?;
    reads_lines(&rt, &mut cuts, GOOD);
    Ok(())
}

/// A kind of line, another line, and its first fault.
type Bad = (Expect, &'static [u8], LineFault);

const HEADS: &[Bad] = &[
    (Expect::Size, b"size 01 2 2 1", LineFault::Number),
    (Expect::Size, b"size 65 2 2 1", LineFault::Number),
    (Expect::Size, b"size +1 2 2 1", LineFault::Number),
    (Expect::Size, b"size 1 2 2 1\r", LineFault::Number),
    (Expect::Size, b"size 1  2 2 1", LineFault::Shape),
    (Expect::Size, b"size 1 2 2 1 ", LineFault::Shape),
    (Expect::Form, b"crew dossier 1\r", LineFault::Shape),
    (Expect::Form, b"", LineFault::Shape),
    (Expect::Place, b"place G%", LineFault::Name),
    (Expect::Place, b"place G1\r", LineFault::Name),
    (
        Expect::Team { places: 2 },
        b"team T% 9 360 840",
        LineFault::Name,
    ),
    (NODE, b"window 3 0", LineFault::Number),
    (NODE, b"leaf shut", LineFault::Shape),
    (NODE, b"tree 0 0 1 0", LineFault::Shape),
];

const ROUTES: &[Bad] = &[
    (ROUTE, b"route 1", LineFault::Shape),
    (ROUTE, b"route 1 2", LineFault::Shape),
    (ROUTE, b"route 1 2 420 0", LineFault::Shape),
    (ROUTE, b"rout 1 2 420", LineFault::Shape),
    (ROUTE, b"route 2 2 420", LineFault::Number),
    (ROUTE, b"route 1 3 420", LineFault::Number),
    (ROUTE, b"route 1 2 2881", LineFault::Number),
    (ROUTE, b"route 1 2 420 00 420", LineFault::Number),
    (ROUTE, b"route -1 2 420", LineFault::Number),
];

const PRICE: Expect = Expect::Price { tasks: 2 };

const EXTRA: Expect = Expect::Extra { task: 0, count: 2 };

const PRICES: &[Bad] = &[
    (PRICE, b"price 1", LineFault::Shape),
    (PRICE, b"price 1 2 3", LineFault::Shape),
    (PRICE, b"price 1 840000000000001", LineFault::Number),
    (PRICE, b"price -840000000000001 1", LineFault::Number),
    (PRICE, b"price 1 -0", LineFault::Number),
    (EXTRA, b"extra 1 1 2", LineFault::Shape),
    (EXTRA, b"extra 00 1 2", LineFault::Shape),
    (EXTRA, b"extra 0 1", LineFault::Shape),
    (EXTRA, b"extra 0 1 2 3", LineFault::Shape),
    (EXTRA, b"extra 0 1 840000000000001", LineFault::Number),
    (EXTRA, b"extra 0 1 02", LineFault::Number),
];

const PHI: Expect = Expect::Phi { task: 12, count: 1 };

const STEPS: Expect = Expect::Steps { task: 12 };

const SECOND_FORM: &[Bad] = &[
    (Expect::Form, b"crew dossier 3", LineFault::Shape),
    (Expect::Frozen { most: 2 }, b"frozen", LineFault::Shape),
    (Expect::Frozen { most: 2 }, b"frozen 3", LineFault::Number),
    (KEEP, b"keep 2", LineFault::Shape),
    (KEEP, b"do 2 420", LineFault::Shape),
    (KEEP, b"keep 3 420", LineFault::Number),
    (KEEP, b"keep 2 2881", LineFault::Number),
    (KEEP, b"keep 2 420 2", LineFault::Number),
    (WHY, b"why", LineFault::Shape),
    (WHY, b"why not", LineFault::Shape),
    (WHY, b"why none 0", LineFault::Shape),
    (WHY, b"why loose 1 1", LineFault::Shape),
    (WHY, b"why loose 3 1 1", LineFault::Number),
    (WHY, b"why loose 1 0 1", LineFault::Number),
    (
        WHY,
        b"why loose 1 170141183460469231731687303715884105728 1",
        LineFault::Number,
    ),
    (WHY, b"why overflow 1 div 1 1", LineFault::Shape),
    (WHY, b"why overflow 1 add -0 1", LineFault::Number),
    (WHY, b"why spent 0", LineFault::Number),
    (SHARE, b"share 1", LineFault::Shape),
    (SHARE, b"share 3 1", LineFault::Number),
    (SHARE, b"share 1 0", LineFault::Number),
    (SHARE, b"share 1 5", LineFault::Number),
    (SPARE, b"spare 0", LineFault::Shape),
    (SPARE, b"spare 0 5", LineFault::Number),
    (STEPS, b"steps 12", LineFault::Shape),
    (STEPS, b"steps 12 420", LineFault::Shape),
    (STEPS, b"steps 12 420 1 421", LineFault::Shape),
    (STEPS, b"steps 1 420 1", LineFault::Shape),
    (STEPS, b"steps 012 420 1", LineFault::Shape),
    (STEPS, b"steps 12 2881 1", LineFault::Number),
    (STEPS, b"steps 12 -1 1", LineFault::Number),
    (
        STEPS,
        b"steps 12 420 9223372036854775808",
        LineFault::Number,
    ),
];

const POTENTIALS: &[Bad] = &[
    (Expect::Worth, b"worth", LineFault::Shape),
    (Expect::Worth, b"worth 1 2", LineFault::Shape),
    (Expect::Worth, b"worth -1", LineFault::Number),
    (
        Expect::Worth,
        b"worth 9223372036854775808",
        LineFault::Number,
    ),
    (Expect::Worth, b"worth 01", LineFault::Number),
    (PHI, b"phi 12", LineFault::Shape),
    (PHI, b"phi 1 0", LineFault::Shape),
    (PHI, b"phi 012 0", LineFault::Shape),
    (PHI, b"phi 12 0 0", LineFault::Shape),
    (PHI, b"phi 12 9223372036854775808", LineFault::Number),
    (PHI, b"phi 12 -9223372036854775809", LineFault::Number),
    (PHI, b"phi 12 00", LineFault::Number),
];

/// Asserts the first fault of each line of the table.
fn tells_faults(rt: &impl Abort, cuts: &mut Cuts, table: &[Bad]) {
    for (expect, line, fault) in table {
        assert!(rt; line.len() < 100);
        let told = read_line(*expect, cuts.split(line)).err();
        same_at(rt, &told, &Some(*fault), &Shown(line));
    }
}

#[test]
fn tells_the_first_fault(rt: HostRuntime) -> Result<(), Fail> {
    let mut cuts = Cuts::new(rt.alloc())?;
    for table in [HEADS, ROUTES, PRICES, SECOND_FORM, POTENTIALS] {
        tells_faults(&rt, &mut cuts, table);
    }
    Ok(())
}

#[test]
fn reads_the_numbers_of_a_route_and_of_potentials(rt: HostRuntime) -> Result<(), Fail> {
    let mut cuts = Cuts::new(rt.alloc())?;
    let route = Expect::Route { teams: 2, tasks: 3 };
    match read_line(route, cuts.split(b"route 1 2 420 0 480"))? {
        LineKind::Route { team, visits } => {
            assert!(rt; visits.len() == 4);
            same(&rt, &team, &1);
            same(&rt, &(visits.get(0), visits.get(1)), &(2, 420));
            same(&rt, &(visits.get(2), visits.get(3)), &(0, 480));
        }
        _ => holds_at(&rt, false, &"no route"),
    }
    let phi = Expect::Phi { task: 7, count: 2 };
    match read_line(phi, cuts.split(b"phi 7 -9223372036854775808 5"))? {
        LineKind::Phi { task, values } => {
            assert!(rt; values.len() == 2);
            same(&rt, &task, &7);
            same(&rt, &(values.get(0), values.get(1)), &(i64::MIN, 5));
        }
        _ => holds_at(&rt, false, &"no potentials"),
    }
    Ok(())
}

#[test]
fn reads_the_fields_of_a_task(rt: HostRuntime) -> Result<(), Fail> {
    let mut cuts = Cuts::new(rt.alloc())?;
    match read_line(
        Expect::Task { places: 2 },
        cuts.split(b"task A 1 420 450 30 1 7"),
    )? {
        LineKind::Task {
            name,
            place,
            earliest,
            latest,
            minutes,
            teams,
            skills,
        } => {
            same(&rt, &name.bytes(), &b"A".as_slice());
            same(
                &rt,
                &(place, earliest, latest, minutes, teams),
                &(1, 420, 450, 30, 1),
            );
            assert!(rt; skills.len() == 1);
            same(&rt, &skills.get(0), &7);
        }
        _ => holds_at(&rt, false, &"no task"),
    }
    Ok(())
}
