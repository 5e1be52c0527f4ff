// What the checker says of the lines of a cause, behind the lines before it.
use crate::asserts::same_at;
use cert_checker::{Checker, Reason, Said};
use crew_fixtures::Shown;
use crew_fixtures::dossiers::Lines;
use std::alloc::{Alloc, Global};
use std::process::Abort;
use std::test::Fail;

/// A line, and why it is refused, if it is.
pub type Line = (&'static [u8], Option<Reason>);

/// Lines, and why the last of them is refused, if it is. Those before it are taken.
pub type Cause = (Lines, Option<Reason>);

/// What is said of one more line.
fn said_of(checker: &mut Checker, line: &[u8]) -> Result<Said, Fail> {
    if line.len() > 120 || line.contains(&b'\n') || checker.lines() > 1000 {
        return Err(Fail::from("the line"));
    }
    Ok(checker.line(line)?)
}

/// Reads lines that are taken.
fn read_lines(checker: &mut Checker, lines: &[&[u8]]) -> Result<(), Fail> {
    for line in lines {
        if said_of(checker, line)? != Said::More {
            return Err(Fail::from("an earlier line"));
        }
    }
    Ok(())
}

/// What is said of a line behind these.
fn said_behind(
    checker: &mut Checker,
    front: &[&[u8]],
    lead: &[&[u8]],
    line: &[u8],
) -> Result<Said, Fail> {
    read_lines(checker, front)?;
    read_lines(checker, lead)?;
    said_of(checker, line)
}

/// What is to be said of the line of this number.
fn wanted_of(number: usize, refused: Option<Reason>) -> Said {
    match refused {
        Some(reason) => Said::No {
            line: number as u64,
            reason,
        },
        None => Said::More,
    }
}

/// Asserts what is said of a line behind those of a front and a lead.
pub fn judges(
    rt: &(impl Abort + Alloc<A = Global>),
    front: &[&[u8]],
    lead: &[&[u8]],
    line: &[u8],
    refused: Option<Reason>,
) -> Result<(), Fail> {
    let mut checker = Checker::open(rt.alloc())?;
    let said = said_behind(&mut checker, front, lead, line);
    drop(checker);
    let number = front.len().saturating_add(lead.len()).saturating_add(1);
    same_at(rt, &said?, &wanted_of(number, refused), &Shown(line));
    Ok(())
}

/// Asserts it of each line of the table, behind the same front and lead.
pub fn judges_lines(
    rt: &(impl Abort + Alloc<A = Global>),
    front: &[&[u8]],
    lead: &[&[u8]],
    table: &[Line],
) -> Result<(), Fail> {
    for (line, refused) in table {
        judges(rt, front, lead, line, *refused)?;
    }
    Ok(())
}

/// Asserts it of the last line of each cause of the table, behind the same front.
pub fn judges_causes(
    rt: &(impl Abort + Alloc<A = Global>),
    front: &[&[u8]],
    table: &[Cause],
) -> Result<(), Fail> {
    for (lines, refused) in table {
        let Some((last, lead)) = lines.split_last() else {
            return Err(Fail::from("no line"));
        };
        judges(rt, front, lead, last, *refused)?;
    }
    Ok(())
}
