// What the program answers, and what it has written, where a read, a write or the flush fails.
ghost use Rattle.std.specs.Prelude.{◌≤◌};

use crate::answers::YES;
use crate::asserts::{holds_at, same, same_at};
use crate::days::{DAY, crlf_text};
use crate::delays::{JOINT, late_input};
use crate::squeezes::NO_TASK;
use crew_cli::run::{Status, run};
use crew_cli::steady::{run_in_memory, run_steady};
use crew_fixtures::dossiers::{ONE_TASK, TOGETHER, WITH_POOL};
use crew_fixtures::{joined, text_of};
use crew_io::sink::{MemSink, SteadySink};
use crew_io::source::{MemSource, SteadySource};
use std::alloc::{AllocError, Global};
use std::process::Abort;
use std::test::Fail;

/// More bytes than any output here has.
const ROOM: usize = 400;

/// More calls than any run here makes.
const CALLS: u64 = 1000;

/// What `crew` answers to a word and writes, over a source that gives pieces of so many bytes and a sink with this
/// room, where these reads and writes fail, from 1. A flush is counted with the writes.
fn answer_over(
    alloc: Global,
    word: &str,
    input: &[u8],
    piece: usize,
    reads: &[u64],
    room: usize,
    writes: &[u64],
) -> Result<(Status, Vec<u8>), AllocError>
    requires { 1 ≤ piece }
{
    let mut words = Vec::new(alloc);
    words.push(String::from_str(alloc, word)?)?;
    let mut src = MemSource::new(input.to_vec(alloc)?, piece, reads.to_vec(alloc)?);
    let mut out = MemSink::new(alloc, room, 7, writes.to_vec(alloc)?)?;
    let status = run(alloc, &words, &mut src, &mut out);
    Ok((status, out.got().to_vec(alloc)?))
}

/// How many reads there are, each of which was told where it failed, with a front of the output; none where one
/// was not.
fn told_reads(alloc: Global, word: &str, input: &[u8], piece: usize) -> Result<Option<u64>, Fail>
    requires { 1 ≤ piece }
{
    let whole = answer_over(alloc, word, input, piece, &[], ROOM, &[])?;
    for call in 1..CALLS {
        let (status, written) = answer_over(alloc, word, input, piece, &[call], ROOM, &[])?;
        if status != Status::ReadFault {
            return Ok((status == whole.0 && written == whole.1).then_some(call - 1));
        }
        if !whole.1.starts_with(&written) {
            return Ok(None);
        }
    }
    Ok(None)
}

/// Whether each write and the flush is told where it fails, with a front of the output. The last of these is the
/// flush, behind the whole output.
fn tells_writes(alloc: Global, word: &str, input: &[u8], piece: usize) -> Result<bool, Fail>
    requires { 1 ≤ piece }
{
    let whole = answer_over(alloc, word, input, piece, &[], ROOM, &[])?;
    let mut last = 0;
    for call in 1..CALLS {
        let (status, written) = answer_over(alloc, word, input, piece, &[], ROOM, &[call])?;
        if status != Status::WriteFault {
            return Ok(status == whole.0 && written == whole.1 && last == whole.1.len());
        }
        if !whole.1.starts_with(&written) {
            return Ok(false);
        }
        last = written.len();
    }
    Ok(false)
}

/// Whether each sink whose room is too small is filled, and its fault told; and one with just the room is no fault.
fn tells_small_rooms(alloc: Global, word: &str, input: &[u8], piece: usize) -> Result<bool, Fail>
    requires { 1 ≤ piece }
{
    let (answer, whole) = answer_over(alloc, word, input, piece, &[], ROOM, &[])?;
    let mut tells = true;
    for room in 0..whole.len() {
        let (status, written) = answer_over(alloc, word, input, piece, &[], room, &[])?;
        tells &= status == Status::WriteFault
            && written.len() == room
            && whole.starts_with(&written);
    }
    let (status, _) = answer_over(alloc, word, input, piece, &[], whole.len(), &[])?;
    Ok(tells && status == answer)
}

/// How many reads hand out so many bytes in pieces.
fn reads_of(bytes: usize, piece: usize) -> u64
    requires { 1 ≤ piece }
{
    bytes.div_ceil(piece) as u64
}

/// Two good dossiers.
fn two_dossiers(alloc: Global) -> Result<Vec<u8>, AllocError> {
    let good = text_of(alloc, ONE_TASK)?;
    joined(alloc, &[&good, &good])
}

/// A good dossier, and one up to the line that is refused, which is the last one here: a potential that is too low.
fn until_refused(alloc: Global) -> Result<Vec<u8>, AllocError> {
    let good = text_of(alloc, ONE_TASK)?;
    let front = text_of(alloc, &WITH_POOL[..19])?;
    joined(alloc, &[&good, &front, b"phi 1 839999999\n"])
}

/// Asserts that each read, each write and the flush is told where it fails, of which so many reads are made, and that
/// small rooms are filled.
fn assert_tells(
    rt: &impl Abort,
    alloc: Global,
    word: &str,
    input: &[u8],
    piece: usize,
    reads: u64,
) -> Result<(), Fail>
    requires { 1 ≤ piece }
{
    same_at(
        rt,
        &told_reads(alloc, word, input, piece)?,
        &Some(reads),
        &piece,
    );
    holds_at(rt, tells_writes(alloc, word, input, piece)?, &piece);
    holds_at(rt, tells_small_rooms(alloc, word, input, piece)?, &piece);
    Ok(())
}

/// One read more than hand out so many bytes in pieces.
fn reads_to_the_end(bytes: usize, piece: usize) -> u64
    requires { 1 ≤ piece }
{
    reads_of(bytes, piece).saturating_add(1)
}

/// Asserts it of two good dossiers.
fn assert_tells_of_two(rt: &impl Abort, alloc: Global, piece: usize) -> Result<(), Fail>
    requires { 1 ≤ piece }
{
    let twice = two_dossiers(alloc)?;
    let reads = reads_to_the_end(twice.len(), piece);
    assert_tells(rt, alloc, "check", &twice, piece, reads)
}

/// Asserts it of a dossier that is refused between two good ones. No read comes after the refusal.
fn assert_tells_of_refusal(rt: &impl Abort, alloc: Global, piece: usize) -> Result<(), Fail>
    requires { 1 ≤ piece }
{
    let front = until_refused(alloc)?;
    let good = text_of(alloc, ONE_TASK)?;
    let refused = joined(alloc, &[&front, b"end\n", &good])?;
    let reads = reads_of(front.len(), piece);
    assert_tells(rt, alloc, "check", &refused, piece, reads)
}

#[test]
fn two_dossiers_in_pieces_of_sixteen(rt: HostRuntime) -> Result<(), Fail> {
    assert_tells_of_two(&rt, rt.alloc(), 16)
}

#[test]
fn two_dossiers_byte_by_byte(rt: HostRuntime) -> Result<(), Fail> {
    assert_tells_of_two(&rt, rt.alloc(), 1)
}

#[test]
fn a_refusal_in_pieces_of_sixteen(rt: HostRuntime) -> Result<(), Fail> {
    assert_tells_of_refusal(&rt, rt.alloc(), 16)
}

#[test]
fn a_refusal_byte_by_byte(rt: HostRuntime) -> Result<(), Fail> {
    assert_tells_of_refusal(&rt, rt.alloc(), 1)
}

#[test]
fn a_day_in_pieces(rt: HostRuntime) -> Result<(), Fail> {
    let day = crlf_text(rt.alloc(), DAY)?;
    let reads = reads_to_the_end(day.len(), 16);
    assert_tells(&rt, rt.alloc(), "apply", &day, 16, reads)?;
    let reads = reads_to_the_end(day.len(), 1);
    assert_tells(&rt, rt.alloc(), "apply", &day, 1, reads)
}

#[test]
fn rosters_in_pieces(rt: HostRuntime) -> Result<(), Fail> {
    let alloc = rt.alloc();
    let both = joined(
        alloc,
        &[&text_of(alloc, WITH_POOL)?, &text_of(alloc, TOGETHER)?],
    )?;
    let reads = reads_to_the_end(both.len(), 16);
    assert_tells(&rt, alloc, "rosters", &both, 16, reads)?;
    let reads = reads_to_the_end(both.len(), 1);
    assert_tells(&rt, alloc, "rosters", &both, 1, reads)
}

#[test]
fn delays_in_pieces(rt: HostRuntime) -> Result<(), Fail> {
    let alloc = rt.alloc();
    let input = late_input(alloc, &[b"late B 455"], JOINT)?;
    let reads = reads_to_the_end(input.len(), 16);
    assert_tells(&rt, alloc, "delays", &input, 16, reads)?;
    let reads = reads_to_the_end(input.len(), 1);
    assert_tells(&rt, alloc, "delays", &input, 1, reads)?;
    // No read comes after the refusal.
    let refused = late_input(alloc, &[b"late B 5761"], JOINT)?;
    assert_tells(&rt, alloc, "delays", &refused, 1, 12)
}

#[test]
fn sheets_in_pieces(rt: HostRuntime) -> Result<(), Fail> {
    let alloc = rt.alloc();
    let good = text_of(alloc, NO_TASK)?;
    let both = joined(alloc, &[&good, &good])?;
    let reads = reads_to_the_end(both.len(), 16);
    assert_tells(&rt, alloc, "squeeze-check", &both, 16, reads)?;
    let reads = reads_to_the_end(both.len(), 1);
    assert_tells(&rt, alloc, "squeeze-check", &both, 1, reads)
}

#[test]
fn a_refused_sheet_in_pieces(rt: HostRuntime) -> Result<(), Fail> {
    let alloc = rt.alloc();
    let front = text_of(alloc, &NO_TASK[..7])?;
    let refused = joined(
        alloc,
        &[&text_of(alloc, NO_TASK)?, &front, b"worth 05\nend\n"],
    )?;
    // No read comes after the refusal.
    let reads = reads_of(refused.len().saturating_sub(4), 16);
    assert_tells(&rt, alloc, "squeeze-check", &refused, 16, reads)
}

/// The words of `crew check`.
fn check_words(alloc: Global) -> Result<Vec<String>, AllocError> {
    let mut words = Vec::new(alloc);
    words.push(String::from_str(alloc, "check")?)?;
    Ok(words)
}

#[test]
fn what_does_not_fail_is_no_fault(rt: HostRuntime) -> Result<(), Fail> {
    let alloc = rt.alloc();
    let words = check_words(alloc)?;
    let mut src = SteadySource::new(text_of(alloc, ONE_TASK)?, 10);
    let steady = run_steady(alloc, &words, &mut src, &mut SteadySink::new());
    same(&rt, &steady, &Status::Done);
    let mut src = MemSource::new(text_of(alloc, ONE_TASK)?, 10, Vec::new(alloc));
    let mut out = MemSink::new(alloc, YES.len(), 7, Vec::new(alloc))?;
    let told = run_in_memory(alloc, &words, &mut src, &mut out);
    same(&rt, &told, &Status::Done);
    same(&rt, &out.got(), &YES);
    Ok(())
}

#[test]
fn the_first_calls_fail(rt: HostRuntime) -> Result<(), Fail> {
    for dossier in [ONE_TASK, WITH_POOL] {
        let text = text_of(rt.alloc(), dossier)?;
        let (read, nothing) = answer_over(rt.alloc(), "check", &text, 10, &[3], ROOM, &[])?;
        same(&rt, &read, &Status::ReadFault);
        same(&rt, &nothing.is_empty(), &true);
        let (write, none) = answer_over(rt.alloc(), "check", &text, 10, &[], ROOM, &[1])?;
        same(&rt, &write, &Status::WriteFault);
        same(&rt, &none.is_empty(), &true);
    }
    Ok(())
}
