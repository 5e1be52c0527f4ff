// What `crew day` answers, and what it has written, where a read, a write or the flush fails.
ghost use Rattle.std.specs.Prelude.{◌≤◌};

use crate::answers::{answer_over, holds_at};
use crate::days::{JOINT_TASK, ONE_TASK};
use crate::rounds::CANCELLED;
use crew_cli::run::Status;
use std::alloc::Global;
use std::process::Abort;
use std::test::Fail;

/// More calls than any run here makes.
const CALLS: u64 = 2000;

/// Whether each read is told where it fails, with nothing written, as the whole text is read first.
fn tells_reads(alloc: Global, day: &[u8], piece: usize) -> Result<bool, Fail>
    requires { 1 ≤ piece }
{
    let whole = answer_over(alloc, "day", day, piece, &[], &[])?;
    for call in 1..CALLS {
        let (status, written) = answer_over(alloc, "day", day, piece, &[call], &[])?;
        if status != Status::ReadFault {
            let reads = day.len().div_ceil(piece) as u64;
            return Ok(status == whole.0 && written == whole.1 && call > reads);
        }
        if !written.is_empty() {
            return Ok(false);
        }
    }
    Ok(false)
}

/// Whether each write and the flush is told where it fails, with a front of the output. The last of these is the
/// flush, behind the whole output.
fn tells_writes(alloc: Global, day: &[u8], piece: usize) -> Result<bool, Fail>
    requires { 1 ≤ piece }
{
    let whole = answer_over(alloc, "day", day, piece, &[], &[])?;
    let mut last = 0;
    for call in 1..CALLS {
        let (status, written) = answer_over(alloc, "day", day, piece, &[], &[call])?;
        if status != Status::WriteFault {
            return Ok(status == whole.0 && written == whole.1 && last == whole.1.len());
        }
        if !whole.1.starts_with(&written) {
            return Ok(false);
        }
        last = written.len();
    }
    Ok(false)
}

/// Asserts that each read, each write and the flush is told where it fails.
fn assert_tells(rt: &impl Abort, alloc: Global, piece: usize) -> Result<(), Fail>
    requires { 1 ≤ piece }
{
    for day in [ONE_TASK, JOINT_TASK, CANCELLED] {
        holds_at(rt, tells_reads(alloc, day, piece)?, &piece);
        holds_at(rt, tells_writes(alloc, day, piece)?, &piece);
    }
    Ok(())
}

#[test]
fn days_in_pieces_of_sixteen(rt: HostRuntime) -> Result<(), Fail> {
    assert_tells(&rt, rt.alloc(), 16)
}

#[test]
fn days_byte_by_byte(rt: HostRuntime) -> Result<(), Fail> {
    assert_tells(&rt, rt.alloc(), 1)
}
