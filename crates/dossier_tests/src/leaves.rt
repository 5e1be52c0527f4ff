// Leaves of small days, read at the root.
ghost use Rattle.leaf_check.specs.Reader.{IsReady};

use crate::asserts::{same, same_at};
use crew_fixtures::{FixtureFault, Shown, gate_instance, hardly_overlapping, task, two_at_once};
use crew_instance::Instance;
use crew_terms::Task;
use dossier_terms::{DossierForm, Reason};
use field_table::Cuts;
use leaf_check::{Goal, LeafReader, LeafStep};
use node_limits::Limits;
use std::alloc::Global;
use std::test::Fail;

/// A task, and no team.
fn no_teams(alloc: Global) -> Result<Instance, FixtureFault> {
    let task = Task {
        latest: 480,
        teams: 2,
        ..task(b"J")?
    };
    gate_instance(alloc, &[], &[task])
}

/// Reads a leaf: how many of its lines are judged, and what is said of the last one.
fn read_leaf(
    reader: &mut LeafReader,
    limits: &Limits<'_>,
    goal: Goal,
    cuts: &mut Cuts,
    lines: &[&[u8]],
) -> (usize, Result<LeafStep, Reason>)
    requires { IsReady limits.now.limits reader.old }
    ensures { IsReady limits.now.limits reader.new }
{
    reader.begin();
    for (n, line) in lines.iter().enumerate() {
        if line.len() > 100 {
            return (n, Ok(LeafStep::More));
        }
        let step = reader.line(limits, goal, cuts.split(line));
        if step != Ok(LeafStep::More) {
            return (n + 1, step);
        }
    }
    (lines.len(), Ok(LeafStep::More))
}

/// Reads a leaf of the root of a day.
fn read_root(
    alloc: Global,
    day: &Instance,
    goal: Goal,
    lines: &[&[u8]],
) -> Result<(usize, Result<LeafStep, Reason>), Fail> {
    let limits = Limits::root(alloc, day)?;
    let mut reader = LeafReader::open(alloc, &limits)?;
    let mut cuts = Cuts::new(alloc)?;
    Ok(read_leaf(&mut reader, &limits, goal, &mut cuts, lines))
}

const CLOSED: Goal = Goal {
    form: DossierForm::One,
    bound: 1,
    unassigned: 1,
    is_closed: true,
};

const OPEN: Goal = Goal {
    form: DossierForm::One,
    bound: 0,
    unassigned: 1,
    is_closed: false,
};

const LEAF: [&[u8]; 4] = [
    b"price 840000000 840000000",
    b"worth 840000000",
    b"phi 0 840000000",
    b"phi 1 840000000",
];

#[test]
fn reads_a_closed_leaf(rt: HostRuntime) -> Result<(), Fail> {
    let day = two_at_once(rt.alloc())?;
    same(
        &rt,
        &read_root(rt.alloc(), &day, CLOSED, &LEAF)?,
        &(4, Ok(LeafStep::Done)),
    );
    same(
        &rt,
        &read_root(rt.alloc(), &day, CLOSED, &LEAF[..3])?,
        &(3, Ok(LeafStep::More)),
    );
    Ok(())
}

#[test]
fn tests_potentials_at_the_last_line(rt: HostRuntime) -> Result<(), Fail> {
    let day = two_at_once(rt.alloc())?;
    let mut lines = LEAF;
    lines[3] = b"phi 1 839999999";
    let low = Err(Reason::Potential(0, 1));
    same(
        &rt,
        &read_root(rt.alloc(), &day, CLOSED, &lines)?,
        &(4, low),
    );
    lines[2] = b"phi 0 839999999";
    let low = Err(Reason::Potential(0, 0));
    same(
        &rt,
        &read_root(rt.alloc(), &day, CLOSED, &lines)?,
        &(4, low),
    );
    Ok(())
}

#[test]
fn tests_the_worth_after_the_potentials(rt: HostRuntime) -> Result<(), Fail> {
    let day = two_at_once(rt.alloc())?;
    let mut lines = LEAF;
    lines[2] = b"phi 0 840000001";
    let low = Err(Reason::Worth(0));
    same(
        &rt,
        &read_root(rt.alloc(), &day, CLOSED, &lines)?,
        &(4, low),
    );
    lines[1] = b"worth 840000001";
    same(
        &rt,
        &read_root(rt.alloc(), &day, CLOSED, &lines)?,
        &(4, Ok(LeafStep::Done)),
    );
    Ok(())
}

#[test]
fn tests_the_bound_at_the_end(rt: HostRuntime) -> Result<(), Fail> {
    let day = two_at_once(rt.alloc())?;
    let two = Goal { bound: 2, ..CLOSED };
    let no = Err(Reason::Bound);
    same(&rt, &read_root(rt.alloc(), &day, two, &LEAF)?, &(4, no));
    let left = Goal {
        unassigned: 2,
        ..CLOSED
    };
    same(&rt, &read_root(rt.alloc(), &day, left, &LEAF)?, &(4, no));
    let open = Goal {
        unassigned: 2,
        is_closed: false,
        ..CLOSED
    };
    same(
        &rt,
        &read_root(rt.alloc(), &day, open, &LEAF)?,
        &(4, Ok(LeafStep::Done)),
    );
    Ok(())
}

#[test]
fn tells_faults_of_lines(rt: HostRuntime) -> Result<(), Fail> {
    let day = two_at_once(rt.alloc())?;
    let cases: [(usize, &[u8], Reason); 10] = [
        (0, b"price 840000000", Reason::Shape),
        (0, b"price 840000000 840000000 0", Reason::Shape),
        (0, b"price 840000000 840000000000001", Reason::Number),
        (0, b"prices 840000000 840000000", Reason::Shape),
        (1, b"worth", Reason::Shape),
        (1, b"worth -1", Reason::Number),
        (2, b"phi 0", Reason::Shape),
        (2, b"phi 1 840000000", Reason::Shape),
        (2, b"phi 0 9223372036854775808", Reason::Number),
        (3, b"phi 1 840000000 840000000", Reason::Shape),
    ];
    for (n, line, reason) in cases {
        let mut lines = LEAF;
        assert!(rt; n < 4);
        lines[n] = line;
        let told = read_root(rt.alloc(), &day, CLOSED, &lines)?;
        same_at(&rt, &told, &(n + 1, Err(reason)), &Shown(line));
    }
    Ok(())
}

#[test]
fn reads_an_open_leaf_of_two_teams(rt: HostRuntime) -> Result<(), Fail> {
    let day = hardly_overlapping(rt.alloc(), 480)?;
    let lines: [&[u8]; 5] = [b"price 0", b"worth 0", b"phi 0 0", b"worth 0", b"phi 0 0"];
    same(
        &rt,
        &read_root(rt.alloc(), &day, OPEN, &lines)?,
        &(5, Ok(LeafStep::Done)),
    );
    Ok(())
}

#[test]
fn reads_a_team_with_no_open_task(rt: HostRuntime) -> Result<(), Fail> {
    let day = hardly_overlapping(rt.alloc(), 435)?;
    let lines: [&[u8]; 4] = [
        b"price 420000000",
        b"worth 420000000",
        b"phi 0 420000000",
        b"worth 0",
    ];
    same(
        &rt,
        &read_root(rt.alloc(), &day, CLOSED, &lines)?,
        &(4, Ok(LeafStep::Done)),
    );
    Ok(())
}

#[test]
fn ends_a_leaf_of_no_teams_with_its_prices(rt: HostRuntime) -> Result<(), Fail> {
    let day = no_teams(rt.alloc())?;
    let no = Err(Reason::Bound);
    same(
        &rt,
        &read_root(rt.alloc(), &day, CLOSED, &[b"price 1"])?,
        &(1, Ok(LeafStep::Done)),
    );
    same(
        &rt,
        &read_root(rt.alloc(), &day, CLOSED, &[b"price 0"])?,
        &(1, no),
    );
    Ok(())
}

#[test]
fn reads_leaves_one_after_another(rt: HostRuntime) -> Result<(), Fail> {
    let day = two_at_once(rt.alloc())?;
    let limits = Limits::root(rt.alloc(), &day)?;
    let mut reader = LeafReader::open(rt.alloc(), &limits)?;
    let mut cuts = Cuts::new(rt.alloc())?;
    let dear: [&[u8]; 4] = [
        b"price 840000000 840000000",
        b"worth 1680000000",
        b"phi 0 1680000000",
        b"phi 1 1680000000",
    ];
    let no = Err(Reason::Bound);
    same(
        &rt,
        &read_leaf(&mut reader, &limits, CLOSED, &mut cuts, &dear),
        &(4, no),
    );
    same(
        &rt,
        &read_leaf(&mut reader, &limits, CLOSED, &mut cuts, &LEAF),
        &(4, Ok(LeafStep::Done)),
    );
    same(
        &rt,
        &read_leaf(&mut reader, &limits, CLOSED, &mut cuts, &LEAF[..2]),
        &(2, Ok(LeafStep::More)),
    );
    same(
        &rt,
        &read_leaf(&mut reader, &limits, CLOSED, &mut cuts, &LEAF),
        &(4, Ok(LeafStep::Done)),
    );
    Ok(())
}
