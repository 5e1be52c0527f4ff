// Dossiers that belong to their day, and dossiers of another round or day.
use crate::answers::{assert_audit, planned};
use crate::days::{
    BEGUN, CANCELLED_TWICE, FIRST_ROUND, KEPT_JOB, NO_NODE, ONE_MINUTE_LESS, ONE_NODE,
    PLANNED_TWICE, TWO_ROUNDS,
};
use crew_fixtures::dossiers::ONE_TASK;
use crew_fixtures::{joined, text_of, with_line};
use std::alloc::Global;
use std::process::Abort;
use std::test::Fail;

/// Dossiers of this day's two rounds belong to it.
const YES: &[u8] = b"audit 2 yes\n";

#[test]
fn what_is_planned_belongs(rt: HostRuntime) -> Result<(), Fail> {
    for day in [TWO_ROUNDS, PLANNED_TWICE, BEGUN] {
        let dossiers = planned(rt.alloc(), day)?;
        assert_audit(&rt, rt.alloc(), day, &dossiers, YES)?;
    }
    Ok(())
}

#[test]
fn dossiers_of_two_rounds_are_exchanged(rt: HostRuntime) -> Result<(), Fail> {
    let alloc = rt.alloc();
    let first = planned(alloc, FIRST_ROUND)?;
    let both = planned(alloc, TWO_ROUNDS)?;
    let second = both.strip_prefix(&first).ok_or("the first round")?;
    let exchanged = joined(alloc, &[second, &first])?;
    assert_audit(&rt, alloc, TWO_ROUNDS, &exchanged, b"audit no 1 Instance\n")
}

/// The line for a second dossier that does not come behind the first.
fn end_line(alloc: Global, first: &[u8]) -> Result<Vec<u8>, Fail> {
    let lines = first.iter().filter(|b| **b == b'\n').count();
    let text = format!(in alloc; "audit no 2 {} End\n", lines.saturating_add(1))?;
    Ok(text.into_bytes())
}

#[test]
fn a_dossier_that_is_left_out(rt: HostRuntime) -> Result<(), Fail> {
    let alloc = rt.alloc();
    let first = planned(alloc, FIRST_ROUND)?;
    let line = end_line(alloc, &first)?;
    assert_audit(&rt, alloc, TWO_ROUNDS, &first, &line)
}

#[test]
fn a_record_that_is_refused_behind_the_rounds(rt: HostRuntime) -> Result<(), Fail> {
    let alloc = rt.alloc();
    let dossiers = planned(alloc, TWO_ROUNDS)?;
    assert_audit(
        &rt,
        alloc,
        CANCELLED_TWICE,
        &dossiers,
        b"refused 11 NoTask\n",
    )
}

/// A day of one round, the line `size` of a dossier for it, and what an audit writes.
type Budget = (&'static [u8], &'static [u8], &'static [u8]);

const BUDGETS: [Budget; 4] = [
    (NO_NODE, b"size 1 1 2 1", b"audit no 1 Nodes\n"),
    (NO_NODE, b"size 1 1 2 0", b"audit 1 yes\n"),
    (ONE_NODE, b"size 1 1 2 1", b"audit 1 yes\n"),
    (ONE_NODE, b"size 1 1 2 0", b"audit no 1 Nodes\n"),
];

/// The dossiers are in the first form, in which `day` writes none.
#[test]
fn budgets_are_compared(rt: HostRuntime) -> Result<(), Fail> {
    for (day, size, line) in BUDGETS {
        let dossier = with_line(rt.alloc(), ONE_TASK, 2, size)?;
        assert_audit(&rt, rt.alloc(), day, &dossier, line)?;
    }
    Ok(())
}

#[test]
fn dossiers_of_two_days_are_exchanged(rt: HostRuntime) -> Result<(), Fail> {
    let alloc = rt.alloc();
    let line = b"audit no 1 Instance\n";
    let whole = planned(alloc, ONE_NODE)?;
    let less = planned(alloc, ONE_MINUTE_LESS)?;
    assert_audit(&rt, alloc, ONE_NODE, &less, line)?;
    assert_audit(&rt, alloc, ONE_MINUTE_LESS, &whole, line)
}

/// Asserts what is written of this dossier for the second round, in which the work has begun.
fn assert_begun(rt: &impl Abort, alloc: Global, second: &[u8], line: &[u8]) -> Result<(), Fail> {
    let mut dossiers = text_of(alloc, ONE_TASK)?;
    dossiers.extend_from_slice(second)?;
    assert_audit(rt, alloc, BEGUN, &dossiers, line)
}

/// The first round's dossier is in the first form, as it has no frozen work.
#[test]
fn frozen_jobs_are_compared(rt: HostRuntime) -> Result<(), Fail> {
    let alloc = rt.alloc();
    let line = b"audit no 2 Instance\n";
    assert_begun(&rt, alloc, &text_of(alloc, KEPT_JOB)?, YES)?;
    // The same problem without the job that has begun, in either form.
    assert_begun(&rt, alloc, &text_of(alloc, ONE_TASK)?, line)?;
    assert_begun(&rt, alloc, &planned(alloc, ONE_NODE)?, line)
}
