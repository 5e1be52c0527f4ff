// What is told of a day.
use crew_fixtures::Shown;
use crew_io::sink::MemSink;
use crew_io::source::MemSource;
use day_explain::{Ended, explain};
use std::alloc::Global;
use std::process::Abort;
use std::test::Fail;

/// More bytes than is told of any day here.
const ROOM: usize = 20_000;

/// What is told of a day's text, and how that ends.
pub fn told_of(alloc: Global, text: &[u8]) -> Result<(Ended, Vec<u8>), Fail> {
    let mut src = MemSource::new(text.to_vec(alloc)?, 4096, Vec::new(alloc));
    let mut out = MemSink::new(alloc, ROOM, 4096, Vec::new(alloc))?;
    let ended = explain(alloc, &mut src, &mut out)?;
    Ok((ended, out.got().to_vec(alloc)?))
}

/// Ends the test where something else is told of a day with faults.
pub fn assert_told<R: Abort>(rt: &R, alloc: Global, day: &[u8], text: &[u8]) -> Result<(), Fail> {
    let (ended, told) = told_of(alloc, day)?;
    let (told, text) = (Shown(&told), Shown(text));
    assert!(rt; told.0 == text.0, "{told:?} is not {text:?}");
    assert!(rt; ended == Ended::Wrong);
    Ok(())
}
