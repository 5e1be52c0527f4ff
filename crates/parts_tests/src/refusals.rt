// Bundles that are refused.
use crate::asserts::assert_told;
use crate::bundles::{PART_A, PART_B, bundle};
use crew_fixtures::dossiers::TWO_TASKS;
use crew_fixtures::{text_of, with_line};
use dossier_commands::Ended;
use std::test::Fail;

#[test]
fn dossiers_of_no_parts(rt: HostRuntime) -> Result<(), Fail> {
    let alloc = rt.alloc();
    let text = bundle(alloc, TWO_TASKS, b"parts 2", &[PART_A, PART_A])?;
    assert_told(&rt, rt.alloc(), text, Ended::No, b"no 49 Part\n")?;
    // A way that is longer, a shift, the end of a task's window, a skill less, and another name.
    let cases: [(usize, &[u8]); 5] = [
        (5, b"travel 0 11"),
        (7, b"team T1 0 360 841 1 3"),
        (9, b"task A 1 420 451 30 1 1 3"),
        (9, b"task A 1 420 450 30 1 1"),
        (9, b"task C 1 420 450 30 1 1 3"),
    ];
    for (number, line) in cases {
        let mut text = bundle(alloc, TWO_TASKS, b"parts 1", &[])?;
        text.extend_from_slice(&with_line(alloc, PART_A, number, line)?)?;
        assert_told(&rt, rt.alloc(), text, Ended::No, b"no 34 Part\n")?;
    }
    Ok(())
}

#[test]
fn a_shorter_way(rt: HostRuntime) -> Result<(), Fail> {
    let mut text = bundle(rt.alloc(), TWO_TASKS, b"parts 1", &[])?;
    text.extend_from_slice(&with_line(rt.alloc(), PART_A, 5, b"travel 0 9")?)?;
    assert_told(
        &rt,
        rt.alloc(),
        text,
        Ended::Done,
        b"yes unassigned 0 bound 0 parts 1\n",
    )
}

#[test]
fn lines_between_dossiers(rt: HostRuntime) -> Result<(), Fail> {
    let alloc = rt.alloc();
    let cases: [(&[u8], &[u8]); 6] = [
        (b"parts", b"no 19 Shape\n"),
        (b"part 2", b"no 19 Shape\n"),
        (b"parts 2 ", b"no 19 Shape\n"),
        (b"parts 02", b"no 19 Number\n"),
        (b"parts 401", b"no 19 Number\n"),
        (b"parts 3", b"no 50 End\n"),
    ];
    for (line, told) in cases {
        let text = bundle(alloc, TWO_TASKS, line, &[PART_A, PART_B])?;
        assert_told(&rt, rt.alloc(), text, Ended::No, told)?;
    }
    // A dossier more than the line `parts` tells is no first line of a bundle.
    let text = bundle(alloc, TWO_TASKS, b"parts 1", &[PART_A, PART_B])?;
    assert_told(
        &rt,
        rt.alloc(),
        text,
        Ended::No,
        b"yes unassigned 0 bound 0 parts 1\nno 35 Shape\n",
    )?;
    let mut text = b"crew parts 01\n".to_vec(alloc)?;
    text.extend_from_slice(&text_of(alloc, TWO_TASKS)?)?;
    assert_told(&rt, rt.alloc(), text, Ended::No, b"no 1 Shape\n")?;
    let text = text_of(alloc, TWO_TASKS)?;
    assert_told(&rt, alloc, text, Ended::No, b"no 1 Shape\n")
}

#[test]
fn an_input_that_is_cut_off(rt: HostRuntime) -> Result<(), Fail> {
    let alloc = rt.alloc();
    let text = bundle(alloc, TWO_TASKS, b"parts 1", &[PART_A])?;
    let fronts: [(&[u8], &[u8]); 3] = [
        (b"", b"no 1 End\n"),
        (b"crew parts 1", b"no 1 End\n"),
        (b"crew parts 1\n", b"no 2 End\n"),
    ];
    for (front, told) in fronts {
        let input = front.to_vec(alloc)?;
        assert_told(&rt, alloc, input, Ended::No, told)?;
    }
    let backs: [(&[u8], &[u8]); 3] = [
        (b"\n", b"no 34 End\n"),
        (b"end\n", b"no 34 End\n"),
        (b"\nend\n", b"no 33 End\n"),
    ];
    for (back, told) in backs {
        let front = text.strip_suffix(back).ok_or("a front")?;
        let input = front.to_vec(alloc)?;
        assert_told(&rt, alloc, input, Ended::No, told)?;
    }
    // A line of a dossier that is refused has its number in the whole input.
    let mut text = bundle(alloc, TWO_TASKS, b"parts 1", &[])?;
    text.extend_from_slice(&with_line(alloc, PART_A, 12, b"do 0 460 0")?)?;
    assert_told(&rt, rt.alloc(), text, Ended::No, b"no 31 Plan Window 0\n")
}
