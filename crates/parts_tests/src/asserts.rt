// What the command answers, and assertions as calls: `assert_eq!` writes its formatting anew at each place, and each is proved.
use crew_fixtures::Shown;
use crew_io::sink::MemSink;
use crew_io::source::MemSource;
use dossier_commands::Ended;
use parts_command::read_bundles;
use std::alloc::Global;
use std::process::Abort;
use std::test::Fail;

/// How `parts-check` ends with this input, and what it writes, where these reads and writes fail.
pub fn answer(
    alloc: Global,
    input: Vec<u8>,
    read_fails: &[u64],
    write_fails: &[u64],
) -> Result<(Ended, Vec<u8>), Fail> {
    let mut src = MemSource::new(input, 700, read_fails.to_vec(alloc)?);
    let mut out = MemSink::new(alloc, 2000, 7, write_fails.to_vec(alloc)?)?;
    let ended = read_bundles(alloc, &mut src, &mut out)?;
    Ok((ended, out.got().to_vec(alloc)?))
}

/// Asserts that it ends so with this input, and writes this text.
pub fn assert_told(
    rt: &impl Abort,
    alloc: Global,
    input: Vec<u8>,
    wanted: Ended,
    text: &[u8],
) -> Result<(), Fail> {
    let (ended, written) = answer(alloc, input, &[], &[])?;
    assert_that(rt, ended == wanted, &written, text);
    assert_that(rt, written.as_slice() == text, &written, text);
    Ok(())
}

/// Ends the test where it doesn't hold, and tells what was written and what was wanted.
pub fn assert_that(rt: &impl Abort, holds: bool, written: &[u8], wanted: &[u8]) {
    assert!(rt; holds, "{:?} {:?}", Shown(written), Shown(wanted));
}
