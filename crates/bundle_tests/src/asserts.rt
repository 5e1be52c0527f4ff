// What the command answers, and assertions as calls: `assert_eq!` writes its formatting anew at each place, and each is proved.
ghost use Rattle.std.specs.Prelude.{◌≤◌};
ghost use Rattle.crew_terms.specs.declared.TheConstants.{MOST_NODES};

use bundle_command::{Job, PiecesEnded, write_pieces};
use crew_fixtures::Shown;
use crew_io::sink::MemSink;
use crew_io::source::MemSource;
use dossier_commands::Ended;
use parts_command::read_bundles;
use std::alloc::Global;
use std::process::Abort;
use std::test::Fail;

/// More bytes than any output here has.
const ROOM: usize = 8000;

/// How `parts` ends with this input and a budget of so many nodes for each part, and what it writes, where these reads and
/// writes fail, from 1.
pub fn answer_over(
    alloc: Global,
    nodes: u32,
    input: &[u8],
    reads: &[u64],
    writes: &[u64],
) -> Result<(PiecesEnded, Vec<u8>), Fail>
    requires { nodes ≤ MOST_NODES }
{
    let mut src = MemSource::new(input.to_vec(alloc)?, 700, reads.to_vec(alloc)?);
    let mut out = MemSink::new(alloc, ROOM, 7, writes.to_vec(alloc)?)?;
    let ended = write_pieces(alloc, Job::Bundle { nodes }, &mut src, &mut out)?;
    Ok((ended, out.got().to_vec(alloc)?))
}

/// The same where nothing fails.
pub fn answer(alloc: Global, nodes: u32, input: &[u8]) -> Result<(PiecesEnded, Vec<u8>), Fail>
    requires { nodes ≤ MOST_NODES }
{
    answer_over(alloc, nodes, input, &[], &[])
}

/// How `parts-check` ends with these bundles, and what it writes.
pub fn checked(alloc: Global, bundles: Vec<u8>) -> Result<(Ended, Vec<u8>), Fail> {
    let mut src = MemSource::new(bundles, 700, Vec::new(alloc));
    let mut out = MemSink::new(alloc, ROOM, 7, Vec::new(alloc))?;
    let ended = read_bundles(alloc, &mut src, &mut out)?;
    Ok((ended, out.got().to_vec(alloc)?))
}

/// Asserts that `parts` ends so, and writes this text.
pub fn assert_text(
    rt: &impl Abort,
    alloc: Global,
    nodes: u32,
    input: &[u8],
    wanted: PiecesEnded,
    text: &[u8],
) -> Result<(), Fail>
    requires { nodes ≤ MOST_NODES }
{
    let (ended, written) = answer(alloc, nodes, input)?;
    assert_that(rt, ended == wanted, &written, text);
    assert_that(rt, written.as_slice() == text, &written, text);
    Ok(())
}

/// Asserts that `parts` ends so, and that `parts-check` says yes to each bundle that it writes, in these lines.
pub fn assert_yes(
    rt: &impl Abort,
    alloc: Global,
    nodes: u32,
    input: &[u8],
    wanted: PiecesEnded,
    lines: &[u8],
) -> Result<(), Fail>
    requires { nodes ≤ MOST_NODES }
{
    let (ended, written) = answer(alloc, nodes, input)?;
    assert_that(rt, ended == wanted, &written, lines);
    let (read, said) = checked(alloc, written)?;
    assert_that(rt, read == Ended::Done, &said, lines);
    assert_that(rt, said.as_slice() == lines, &said, lines);
    Ok(())
}

/// Ends the test where it doesn't hold, and tells what was written and what was wanted.
pub fn assert_that(rt: &impl Abort, holds: bool, written: &[u8], wanted: &[u8]) {
    assert!(rt; holds, "{:?} {:?}", Shown(written), Shown(wanted));
}
