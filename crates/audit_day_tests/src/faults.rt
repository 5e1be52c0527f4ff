// What an audit answers, and what it has written, where a read, a write or the flush fails.
ghost use Rattle.std.specs.Prelude.{◌≤◌};

use crate::answers::{answer_over, holds_at, input_of};
use crate::days::{BEGUN, KEPT_JOB};
use crew_cli::run::Status;
use crew_fixtures::dossiers::ONE_TASK;
use crew_fixtures::text_of;
use std::alloc::Global;
use std::process::Abort;
use std::test::Fail;

/// More calls than any run here makes.
const CALLS: u64 = 2000;

/// Whether each read is told where it fails, with nothing written. The last of them finds the end of the input.
fn tells_reads(alloc: Global, input: &[u8], piece: usize) -> Result<bool, Fail>
    requires { 1 ≤ piece }
{
    let whole = answer_over(alloc, "audit", input, piece, &[], &[])?;
    for call in 1..CALLS {
        let (status, written) = answer_over(alloc, "audit", input, piece, &[call], &[])?;
        if status != Status::ReadFault {
            let reads = input.len().div_ceil(piece) as u64;
            return Ok(status == whole.0 && written == whole.1 && call > reads);
        }
        if !written.is_empty() {
            return Ok(false);
        }
    }
    Ok(false)
}

/// Whether each write and the flush is told where it fails, with a front of the line. The last of these is the flush, behind
/// the whole line.
fn tells_writes(alloc: Global, input: &[u8], piece: usize) -> Result<bool, Fail>
    requires { 1 ≤ piece }
{
    let whole = answer_over(alloc, "audit", input, piece, &[], &[])?;
    let mut last = 0;
    for call in 1..CALLS {
        let (status, written) = answer_over(alloc, "audit", input, piece, &[], &[call])?;
        if status != Status::WriteFault {
            return Ok(status == whole.0 && written == whole.1 && last == whole.1.len());
        }
        if !whole.1.starts_with(&written) {
            return Ok(false);
        }
        last = written.len();
    }
    Ok(false)
}

/// Asserts that each read, each write and the flush is told where it fails.
fn assert_tells(rt: &impl Abort, alloc: Global, input: &[u8], piece: usize) -> Result<(), Fail>
    requires { 1 ≤ piece }
{
    holds_at(rt, tells_reads(alloc, input, piece)?, &piece);
    holds_at(rt, tells_writes(alloc, input, piece)?, &piece);
    Ok(())
}

/// A round without a place, a team or a task, and its dossier.
const NOTHING_TO_DO: &[u8] = b"plan,0
dossiers
crew dossier 1
size 0 0 0 0
pool 0 0
plan 0 0
tree 0 0 1 0
leaf bare
end
";

#[test]
fn each_fault_is_told(rt: HostRuntime) -> Result<(), Fail> {
    let alloc = rt.alloc();
    let mut dossiers = text_of(alloc, ONE_TASK)?;
    dossiers.extend_from_slice(&text_of(alloc, KEPT_JOB)?)?;
    assert_tells(&rt, alloc, &input_of(alloc, BEGUN, &dossiers)?, 16)?;
    assert_tells(&rt, alloc, NOTHING_TO_DO, 1)
}
