// What the program answers to a day with dossiers.
ghost use Rattle.std.specs.Prelude.{◌≤◌};

use crew_cli::run::{Status, run};
use crew_fixtures::Shown;
use crew_io::sink::MemSink;
use crew_io::source::MemSource;
use std::alloc::{AllocError, Global};
use std::fmt::Debug;
use std::process::Abort;
use std::test::Fail;

/// More bytes than any output here has.
const ROOM: usize = 4000;

/// The line between a day and its dossiers.
const BETWEEN: &[u8] = b"dossiers\n";

/// What `crew` answers to a word and writes, over a source and a sink that give and take pieces of so many bytes, where
/// these reads and writes fail, from 1. A flush is counted with the writes.
pub fn answer_over(
    alloc: Global,
    word: &str,
    input: &[u8],
    piece: usize,
    reads: &[u64],
    writes: &[u64],
) -> Result<(Status, Vec<u8>), AllocError>
    requires { 1 ≤ piece }
{
    let mut words = Vec::new(alloc);
    words.push(String::from_str(alloc, word)?)?;
    let mut src = MemSource::new(input.to_vec(alloc)?, piece, reads.to_vec(alloc)?);
    let mut out = MemSink::new(alloc, ROOM, piece, writes.to_vec(alloc)?)?;
    let status = run(alloc, &words, &mut src, &mut out);
    Ok((status, out.got().to_vec(alloc)?))
}

/// What `crew` answers to a word and writes where nothing fails.
pub fn answer(alloc: Global, word: &str, input: &[u8]) -> Result<(Status, Vec<u8>), Fail> {
    Ok(answer_over(alloc, word, input, 4096, &[], &[])?)
}

/// What `crew day` writes of the day, each round of which it proves.
pub fn planned(alloc: Global, day: &[u8]) -> Result<Vec<u8>, Fail> {
    let (status, dossiers) = answer(alloc, "day", day)?;
    if status != Status::Done {
        return Err(Fail::from("a day that is planned"));
    }
    Ok(dossiers)
}

/// A day, the line between, and dossiers.
pub fn input_of(alloc: Global, day: &[u8], dossiers: &[u8]) -> Result<Vec<u8>, AllocError> {
    let mut input = day.to_vec(alloc)?;
    input.extend_from_slice(BETWEEN)?;
    input.extend_from_slice(dossiers)?;
    Ok(input)
}

/// The status that belongs to the line of an audit.
fn status_of(line: &[u8]) -> Status {
    if line.starts_with(b"refused ") {
        return Status::Refused;
    }
    if line.starts_with(b"audit no ") {
        return Status::No;
    }
    Status::Done
}

/// Ends the test where it doesn't hold, and tells the case.
pub fn holds_at<C: Debug>(rt: &impl Abort, holds: bool, case: &C) {
    assert!(rt; holds, "{case:?}");
}

/// Asserts that an audit of the input writes this line, and ends with the status that belongs to it.
pub fn assert_line(rt: &impl Abort, alloc: Global, input: &[u8], line: &[u8]) -> Result<(), Fail> {
    let (status, written) = answer(alloc, "audit", input)?;
    holds_at(
        rt,
        status == status_of(line) && written.as_slice() == line,
        &(status, Shown(&written), Shown(line)),
    );
    Ok(())
}

/// Asserts that an audit of these dossiers behind the day writes this line, and ends with the status that belongs to it.
pub fn assert_audit(
    rt: &impl Abort,
    alloc: Global,
    day: &[u8],
    dossiers: &[u8],
    line: &[u8],
) -> Result<(), Fail> {
    let input = input_of(alloc, day, dossiers)?;
    assert_line(rt, alloc, &input, line)
}
