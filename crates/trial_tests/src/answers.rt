// What the program answers to the words of a trial.
ghost use Rattle.std.specs.Prelude.{◌≤◌};

use crew_cli::run::{Status, run};
use crew_fixtures::Shown;
use crew_io::sink::MemSink;
use crew_io::source::MemSource;
use std::alloc::{AllocError, Global};
use std::fmt::Debug;
use std::process::Abort;
use std::test::Fail;

/// More bytes than a line has.
const ROOM: usize = 200;

/// What `crew` answers to words and writes, over a source that has some bytes, each read of which fails, and a sink that
/// takes pieces of so many bytes, where these writes fail, from 1. A flush is counted with the writes.
pub fn answer_over(
    alloc: Global,
    texts: &[&str],
    piece: usize,
    writes: &[u64],
) -> Result<(Status, Vec<u8>), AllocError>
    requires { 1 ≤ piece }
{
    let mut words = Vec::new(alloc);
    for text in texts {
        words.push(String::from_str(alloc, text)?)?;
    }
    let mut src = MemSource::new(b"place,BASE\n".to_vec(alloc)?, 16, [1, 2].to_vec(alloc)?);
    let mut out = MemSink::new(alloc, ROOM, piece, writes.to_vec(alloc)?)?;
    let status = run(alloc, &words, &mut src, &mut out);
    Ok((status, out.got().to_vec(alloc)?))
}

/// What `crew` answers to words and writes where no write fails.
pub fn answer(alloc: Global, texts: &[&str]) -> Result<(Status, Vec<u8>), Fail> {
    Ok(answer_over(alloc, texts, 4096, &[])?)
}

/// Ends the test where it doesn't hold, and tells the case.
pub fn holds_at<C: Debug>(rt: &impl Abort, holds: bool, case: &C) {
    assert!(rt; holds, "{case:?}");
}

/// Asserts that `crew` answers the words so, and writes this.
pub fn assert_answer(
    rt: &impl Abort,
    alloc: Global,
    texts: &[&str],
    status: Status,
    text: &[u8],
) -> Result<(), Fail> {
    let (told, written) = answer(alloc, texts)?;
    assert_eq!(rt; told, status, "{texts:?}");
    holds_at(
        rt,
        written.as_slice() == text,
        &(Shown(&written), Shown(text)),
    );
    Ok(())
}
