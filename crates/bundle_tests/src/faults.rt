// Inputs that are refused, an empty one, and reads and writes that fail.
use crate::asserts::{answer, answer_over, assert_text, assert_that};
use crate::days::{LATER, MORNING, ONE_PART, both, bundle};
use bundle_command::PiecesEnded;
use crew_fixtures::dossiers::ONE_TASK;
use crew_fixtures::{joined, text_of, with_line};
use std::test::Fail;

#[test]
fn an_input_without_a_dossier(rt: HostRuntime) -> Result<(), Fail> {
    assert_text(&rt, rt.alloc(), 50, b"", PiecesEnded::No, b"no 1 End\n")
}

#[test]
fn a_line_that_is_refused(rt: HostRuntime) -> Result<(), Fail> {
    let alloc = rt.alloc();
    let good = text_of(alloc, ONE_TASK)?;
    // The task begins later than it may.
    let bad = with_line(alloc, ONE_TASK, 11, b"do 0 460 0")?;
    let no = b"no 11 Plan Window 0\n";
    assert_text(&rt, alloc, 0, &bad, PiecesEnded::No, no)?;
    let put = bundle(alloc, ONE_TASK, b"parts 1", &[ONE_PART])?;
    let day = joined(alloc, &[&good, &bad])?;
    let text = joined(alloc, &[&put, b"no 25 Plan Window 0\n"])?;
    assert_text(&rt, alloc, 0, &day, PiecesEnded::No, &text)
}

#[test]
fn an_input_that_is_cut_off(rt: HostRuntime) -> Result<(), Fail> {
    let alloc = rt.alloc();
    let day = joined(alloc, &[&text_of(alloc, ONE_TASK)?, b"crew dossier 1\n"])?;
    let put = bundle(alloc, ONE_TASK, b"parts 1", &[ONE_PART])?;
    let text = joined(alloc, &[&put, b"no 16 End\n"])?;
    assert_text(&rt, alloc, 0, &day, PiecesEnded::No, &text)
}

#[test]
fn a_bundle_is_no_dossier(rt: HostRuntime) -> Result<(), Fail> {
    let alloc = rt.alloc();
    let text = bundle(alloc, ONE_TASK, b"parts 1", &[ONE_PART])?;
    assert_text(&rt, alloc, 0, &text, PiecesEnded::No, b"no 1 Shape\n")
}

#[test]
fn a_read_that_fails(rt: HostRuntime) -> Result<(), Fail> {
    let alloc = rt.alloc();
    let day = both(alloc, MORNING, LATER)?;
    let (ended, written) = answer_over(alloc, 0, &day, &[1], &[])?;
    assert_that(&rt, ended == PiecesEnded::ReadFault, &written, b"");
    assert_that(&rt, written.is_empty(), &written, b"");
    // The first read has the whole first dossier, and a front of the second one.
    let (_, wanted) = answer(alloc, 0, &text_of(alloc, MORNING)?)?;
    let (ended, written) = answer_over(alloc, 0, &day, &[2], &[])?;
    assert_that(&rt, ended == PiecesEnded::ReadFault, &written, &wanted);
    assert_that(&rt, written == wanted, &written, &wanted);
    Ok(())
}

#[test]
fn a_write_that_fails(rt: HostRuntime) -> Result<(), Fail> {
    let alloc = rt.alloc();
    let bad = with_line(alloc, ONE_TASK, 11, b"do 0 460 0")?;
    let day = joined(alloc, &[&text_of(alloc, ONE_TASK)?, &bad])?;
    let (_, whole) = answer(alloc, 0, &day)?;
    // In the first line, in the day's dossier, in the line `parts`, in the part's dossier, and in the no line.
    let cases: [u64; 9] = [1, 2, 3, 20, 26, 27, 29, 54, 57];
    for write in cases {
        let (ended, written) = answer_over(alloc, 0, &day, &[], &[write])?;
        let front = whole.get(..written.len()).ok_or("a front")?;
        assert_that(&rt, ended == PiecesEnded::WriteFault, &written, front);
        assert_that(&rt, written.as_slice() == front, &written, front);
        assert_that(&rt, written.len() < whole.len(), &written, &whole);
    }
    Ok(())
}

#[test]
fn the_first_write_that_fails(rt: HostRuntime) -> Result<(), Fail> {
    let alloc = rt.alloc();
    let day = text_of(alloc, ONE_TASK)?;
    let fronts: [(u64, &[u8]); 4] = [
        (1, b""),
        (2, b"crew pa"),
        (3, b"crew parts 1\n"),
        (4, b"crew parts 1\ncrew do"),
    ];
    for (write, front) in fronts {
        let (ended, written) = answer_over(alloc, 0, &day, &[], &[write])?;
        assert_that(&rt, ended == PiecesEnded::WriteFault, &written, front);
        assert_that(&rt, written.as_slice() == front, &written, front);
    }
    Ok(())
}
