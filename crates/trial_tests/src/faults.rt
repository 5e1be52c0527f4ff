// What `crew trial` answers, and what it has written, where a write or the flush fails.
ghost use Rattle.std.specs.Prelude.{◌≤◌};

use crate::answers::{answer_over, holds_at};
use crew_cli::run::Status;
use std::alloc::Global;
use std::process::Abort;
use std::test::Fail;

/// A trial whose dossier is proved, and one whose dossier is not.
const PROVED: &[&str] = &["trial", "0", "1", "1", "0"];

const UNPROVED: &[&str] = &["trial", "5", "1", "1", "0"];

/// More calls than any run here makes.
const CALLS: u64 = 200;

/// Whether each write and the flush is told where it fails, with a front of the line. The last of these is the flush,
/// behind the whole line.
fn tells_writes(alloc: Global, words: &[&str], piece: usize) -> Result<bool, Fail>
    requires { 1 ≤ piece }
{
    let whole = answer_over(alloc, words, piece, &[])?;
    let mut last = 0;
    for call in 1..CALLS {
        let (status, written) = answer_over(alloc, words, piece, &[call])?;
        if status != Status::WriteFault {
            return Ok(status == whole.0 && written == whole.1 && last == whole.1.len());
        }
        if !whole.1.starts_with(&written) {
            return Ok(false);
        }
        last = written.len();
    }
    Ok(false)
}

/// Asserts it.
fn assert_tells(rt: &impl Abort, alloc: Global, words: &[&str], piece: usize) -> Result<(), Fail>
    requires { 1 ≤ piece }
{
    holds_at(rt, tells_writes(alloc, words, piece)?, &piece);
    Ok(())
}

#[test]
fn a_proved_trial_in_pieces_of_sixteen(rt: HostRuntime) -> Result<(), Fail> {
    assert_tells(&rt, rt.alloc(), PROVED, 16)
}

#[test]
fn a_proved_trial_byte_by_byte(rt: HostRuntime) -> Result<(), Fail> {
    assert_tells(&rt, rt.alloc(), PROVED, 1)
}

#[test]
fn an_unproved_trial_in_pieces_of_sixteen(rt: HostRuntime) -> Result<(), Fail> {
    assert_tells(&rt, rt.alloc(), UNPROVED, 16)
}

#[test]
fn an_unproved_trial_byte_by_byte(rt: HostRuntime) -> Result<(), Fail> {
    assert_tells(&rt, rt.alloc(), UNPROVED, 1)
}
