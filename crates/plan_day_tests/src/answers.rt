// What the program answers to a word.
ghost use Rattle.std.specs.Prelude.{◌≤◌};

use crew_cli::run::{Status, run};
use crew_fixtures::Shown;
use crew_io::sink::MemSink;
use crew_io::source::MemSource;
use std::alloc::{AllocError, Global};
use std::fmt::Debug;
use std::process::Abort;
use std::test::Fail;

/// More bytes than any output here has.
pub const ROOM: usize = 4000;

/// What `crew` answers to a word and writes, over a source and a sink that give and take pieces of so many bytes, where
/// these reads and writes fail, from 1. A flush is counted with the writes.
pub fn answer_over(
    alloc: Global,
    word: &str,
    input: &[u8],
    piece: usize,
    reads: &[u64],
    writes: &[u64],
) -> Result<(Status, Vec<u8>), AllocError>
    requires { 1 ≤ piece }
{
    let mut words = Vec::new(alloc);
    words.push(String::from_str(alloc, word)?)?;
    let mut src = MemSource::new(input.to_vec(alloc)?, piece, reads.to_vec(alloc)?);
    let mut out = MemSink::new(alloc, ROOM, piece, writes.to_vec(alloc)?)?;
    let status = run(alloc, &words, &mut src, &mut out);
    Ok((status, out.got().to_vec(alloc)?))
}

/// What `crew` answers to a word and writes where nothing fails.
pub fn answer(alloc: Global, word: &str, input: &[u8]) -> Result<(Status, Vec<u8>), Fail> {
    Ok(answer_over(alloc, word, input, 4096, &[], &[])?)
}

/// Ends the test where it doesn't hold, and tells the case.
pub fn holds_at<C: Debug>(rt: &impl Abort, holds: bool, case: &C) {
    assert!(rt; holds, "{case:?}");
}

/// Asserts that `crew` answers the word so, and writes this.
pub fn assert_answer(
    rt: &impl Abort,
    alloc: Global,
    word: &str,
    input: &[u8],
    status: Status,
    text: &[u8],
) -> Result<(), Fail> {
    let (told, written) = answer(alloc, word, input)?;
    assert_eq!(rt; told, status, "{:?}", Shown(input));
    holds_at(
        rt,
        written.as_slice() == text,
        &(Shown(&written), Shown(text)),
    );
    Ok(())
}
