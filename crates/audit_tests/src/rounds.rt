// Rounds of a day, and how the dossier of the last one fits.
ghost use Rattle.std.specs.Prelude.{IfOk, IsSome, OnOk};
ghost use Rattle.cert_checker.specs.Checked.{IsEnded};
ghost use Rattle.day_terms.specs.Ranges.{IsInRange};

use cert_checker::Checker;
use crew_fixtures::dossiers::Lines;
use day_audit::{Audit, Fit, Next};
use day_records::read_day;
use day_terms::Entry;
use std::alloc::Global;
use std::test::Fail;

/// Lines that stand in the place of others: their numbers, from 1.
pub type Changes = &'static [(usize, &'static [u8])];

/// Records before a round, the record that begins it, and the lines of a dossier, some of which are changed.
#[derive(Clone, Copy)]
pub struct Round {
    pub records: Lines,
    pub plan: &'static [u8],
    pub dossier: Lines,
    pub changes: Changes,
}

/// The entry of a record.
fn entry_of(alloc: Global, record: &[u8]) -> Result<Entry, Fail>
    ensures { IfOk result IsInRange }
{
    let day = read_day(alloc, record)?;
    match day.entries.as_slice().first() {
        Some(entry) => Ok(*entry),
        None => Err("a record")?,
    }
}

/// What stands in the place of the line of this number.
fn changed<'a>(changes: Changes, number: usize, line: &'a [u8]) -> &'a [u8] {
    for (at, other) in changes {
        if *at == number {
            return other;
        }
    }
    line
}

/// Reads one more line.
fn read_line(checker: &mut Checker, line: &[u8]) -> Result<(), Fail> {
    if line.len() > 60 || line.contains(&b'\n') || checker.lines() > 1000 {
        return Err(Fail::from("the line"));
    }
    checker.line(line)?;
    Ok(())
}

/// A checker that has read a good dossier.
fn read_dossier(alloc: Global, lines: Lines, changes: Changes) -> Result<Checker, Fail>
    ensures { IfOk result (λ checker. IsEnded checker.at) }
{
    let mut checker = Checker::open(alloc)?;
    for (n, line) in lines.iter().enumerate() {
        read_line(&mut checker, changed(changes, n + 1, line))?;
    }
    if !checker.is_between() {
        return Err(Fail::from("a good dossier"));
    }
    Ok(checker)
}

/// Takes a record that begins a round.
fn begin(alloc: Global, audit: &mut Audit, plan: &[u8]) -> Result<(), Fail>
    ensures { OnOk result (IsSome audit.new.due) }
{
    let entry = entry_of(alloc, plan)?;
    match audit.entry(&entry)? {
        Next::Due => Ok(()),
        Next::Changed => Err(Fail::from("a round")),
    }
}

/// Takes records that begin no round.
fn take(alloc: Global, audit: &mut Audit, records: Lines) -> Result<(), Fail> {
    for record in records {
        let entry = entry_of(alloc, record)?;
        if audit.entry(&entry)? != Next::Changed {
            return Err(Fail::from("a change"));
        }
    }
    Ok(())
}

/// How the dossier of one more round fits.
fn fit_of(alloc: Global, audit: &mut Audit, round: &Round) -> Result<Fit, Fail> {
    take(alloc, audit, round.records)?;
    let checker = read_dossier(alloc, round.dossier, round.changes)?;
    begin(alloc, audit, round.plan)?;
    Ok(audit.dossier(&checker)?)
}

/// How the dossier of the last round fits. Those of the rounds before it do.
pub fn last_fit(alloc: Global, rounds: &[Round]) -> Result<Fit, Fail> {
    let mut audit = Audit::new(alloc);
    let mut last = Fit::Fits;
    for round in rounds {
        if last != Fit::Fits {
            return Err(Fail::from("an earlier round"));
        }
        last = fit_of(alloc, &mut audit, round)?;
    }
    Ok(last)
}
