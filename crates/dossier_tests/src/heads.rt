// The head of a dossier: its first line, its instance and its frozen jobs.
ghost use Rattle.head_check.specs.Head.{Holds};

use crate::asserts::{same, same_at};
use crew_fixtures::dossiers::{Lines, TWO_TASKS, WITH_FROZEN};
use crew_fixtures::{Shown, frozen_at, task_at, team_at};
use dossier_terms::{DossierForm, Reason};
use field_table::Cuts;
use head_check::{Base, HeadDue, judge_head};
use line_in::Refusal;
use std::alloc::Global;
use std::mem;
use std::process::Abort;
use std::test::Fail;

/// What is due behind these lines, with the number of the line that is refused, from 1, where one is. No line is read behind
/// a whole instance.
fn read_head(alloc: Global, cuts: &mut Cuts, lines: &[&[u8]]) -> Result<HeadDue, (usize, Refusal)> {
    let mut due = HeadDue::Form;
    for (n, line) in lines.iter().enumerate() {
        if line.len() > 100 || matches!(due, HeadDue::Whole { .. }) {
            return Ok(due);
        }
        let held = mem::replace(&mut due, HeadDue::Form);
        match judge_head(alloc, held, cuts.split(line)) {
            Ok(next) => due = next,
            Err(refusal) => return Err((n + 1, refusal)),
        }
    }
    Ok(due)
}

/// The instance that is whole behind these lines, if it is.
fn base_of(alloc: Global, lines: &[&[u8]]) -> Result<Option<Box<Base>>, Fail> {
    let mut cuts = Cuts::new(alloc)?;
    match read_head(alloc, &mut cuts, lines) {
        Ok(HeadDue::Whole { base }) => Ok(Some(base)),
        _ => Ok(None),
    }
}

#[test]
fn reads_an_instance(rt: HostRuntime) -> Result<(), Fail> {
    let base = base_of(rt.alloc(), TWO_TASKS)?.ok_or("no instance")?;
    same(&rt, &base.form, &DossierForm::One);
    same(&rt, &base.nodes, &1);
    same(&rt, &base.instance.places(), &2);
    same(&rt, &base.instance.teams(), &2);
    same(&rt, &base.instance.tasks(), &2);
    same(
        &rt,
        &team_at(&base.instance, 0).map(|team| team.skills),
        &Some(10),
    );
    same(
        &rt,
        &task_at(&base.instance, 1).map(|task| task.latest),
        &Some(500),
    );
    Ok(())
}

#[test]
fn reads_frozen_jobs(rt: HostRuntime) -> Result<(), Fail> {
    let base = base_of(rt.alloc(), WITH_FROZEN)?.ok_or("no instance")?;
    same(&rt, &base.form, &DossierForm::Two);
    let team: &[u32] = &[0];
    same(&rt, &frozen_at(&base.instance, 0), &Some(Some((420, team))));
    same(&rt, &frozen_at(&base.instance, 1), &Some(None));
    Ok(())
}

/// A line, from 1, another in its place, and why that is refused.
type Case = (usize, &'static [u8], Reason);

const HEADS: &[Case] = &[
    (1, b"crew dossier 3", Reason::Shape),
    (2, b"size 1 2 2", Reason::Shape),
    (2, b"size 1 2 2 100001", Reason::Number),
    (4, b"place G%", Reason::Name),
    (4, b"place BASE", Reason::Name),
    (5, b"travel 0", Reason::Shape),
    (5, b"travel 0 2881", Reason::Number),
    (7, b"team T1 2 360 840", Reason::Number),
    (7, b"team T1 0 840 840", Reason::Instance),
    (7, b"team T1 0 360 840 3 1", Reason::Instance),
    (8, b"task A 1 420 420 0 1", Reason::Number),
    (8, b"task A 1 421 420 30 1", Reason::Instance),
    (9, b"task A 1 420 420 30 1", Reason::Name),
    (10, b"frozen 3", Reason::Number),
    (11, b"keep 2 420 0", Reason::Number),
    (11, b"keep 0 421 0", Reason::Instance),
    (11, b"keep 0 420", Reason::Instance),
];

/// Asserts that the lines are refused where one of them is another.
fn refuses(rt: &impl Abort, alloc: Global, lines: Lines, case: &Case) -> Result<(), Fail> {
    let (n, line, reason) = *case;
    let mut cuts = Cuts::new(alloc)?;
    let mut others: Vec<&[u8]> = Vec::from_slice(alloc, lines)?;
    assert!(rt; n > 0);
    assert!(rt; n <= others.len());
    others[n - 1] = line;
    let told = read_head(alloc, &mut cuts, &others).err();
    same_at(rt, &told, &Some((n, Refusal::No(reason))), &Shown(line));
    Ok(())
}

#[test]
fn refuses_what_breaks_a_rule(rt: HostRuntime) -> Result<(), Fail> {
    for case in HEADS {
        refuses(&rt, rt.alloc(), WITH_FROZEN, case)?;
    }
    Ok(())
}
