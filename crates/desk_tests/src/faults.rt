// What the program answers, and what it has written, where a read, a write or the flush fails.
use crate::answers::answer;
use crew_fixtures::dossiers::{ONE_TASK, TOGETHER, WITH_POOL};
use crew_fixtures::{joined, text_of, with_line};
use desk_cli::status::Status;
use std::alloc::{AllocError, Global};
use std::test::Fail;

/// More calls than any run here makes.
const CALLS: u64 = 2000;

/// A day with something wrong.
const DAY: &[u8] = b"place,BASE\nteam,T1,BASE,06:00,7:00,\nplan,1\n";

/// Two good dossiers.
fn two_dossiers(alloc: Global) -> Result<Vec<u8>, AllocError> {
    let first = text_of(alloc, WITH_POOL)?;
    let second = text_of(alloc, TOGETHER)?;
    joined(alloc, &[&first, &second])
}

/// How many writes and flushes there are, each of which was told where it failed, with a front of the output; none where one
/// was not.
fn told_writes(alloc: Global, word: &str, input: &[u8]) -> Result<Option<u64>, Fail> {
    let (outcome, whole) = answer(alloc, &[word], input, &[], &[])?;
    for call in 1..CALLS {
        let (told, written) = answer(alloc, &[word], input, &[], &[call])?;
        if told.status != Status::WriteFault {
            return Ok((told == outcome && written == whole).then_some(call - 1));
        }
        if !whole.starts_with(&written) {
            return Ok(None);
        }
    }
    Ok(None)
}

/// Whether the read of this number is told where it fails, with a front of the output that has no end.
fn tells_read(alloc: Global, word: &str, input: &[u8], call: u64) -> Result<bool, Fail> {
    let (_, whole) = answer(alloc, &[word], input, &[], &[])?;
    let (told, written) = answer(alloc, &[word], input, &[call], &[])?;
    Ok(told.status == Status::ReadFault && whole.starts_with(&written))
}

#[test]
fn each_write_fails_once(rt: HostRuntime) -> Result<(), Fail> {
    let input = two_dossiers(rt.alloc())?;
    let writes = told_writes(rt.alloc(), "changes", &input)?;
    assert!(rt; writes.is_some_and(|n| n > 2));
    Ok(())
}

#[test]
fn each_write_of_a_page_fails_once(rt: HostRuntime) -> Result<(), Fail> {
    // A short shift has few hours to draw.
    let input = with_line(rt.alloc(), ONE_TASK, 7, b"team T1 0 360 480")?;
    let writes = told_writes(rt.alloc(), "picture", &input)?;
    assert!(rt; writes.is_some_and(|n| n > 90));
    Ok(())
}

#[test]
fn each_write_of_faults_fails_once(rt: HostRuntime) -> Result<(), Fail> {
    let writes = told_writes(rt.alloc(), "explain", DAY)?;
    assert!(rt; writes.is_some_and(|n| n > 5));
    Ok(())
}

#[test]
fn each_read_fails_once(rt: HostRuntime) -> Result<(), Fail> {
    let input = two_dossiers(rt.alloc())?;
    for call in 1..3 {
        assert!(rt; tells_read(rt.alloc(), "changes", &input, call)?);
        assert!(rt; tells_read(rt.alloc(), "picture", &input, call)?);
        assert!(rt; tells_read(rt.alloc(), "explain", DAY, call)?);
    }
    Ok(())
}
