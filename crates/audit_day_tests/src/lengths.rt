// Lines and days of the greatest length.
use crate::answers::{assert_audit, assert_line};
use std::alloc::{AllocError, Global};
use std::test::Fail;

#[test]
fn a_line_that_is_too_long(rt: HostRuntime) -> Result<(), Fail> {
    let alloc = rt.alloc();
    let mut day = vec![in alloc; b'x'; 131_072]?;
    day.push(b'\n')?;
    assert_audit(&rt, alloc, &day, b"", b"refused 1 Kind\n")?;
    let mut day = vec![in alloc; b'x'; 131_073]?;
    day.push(b'\n')?;
    assert_audit(&rt, alloc, &day, b"", b"audit no 0 TooLong\n")
}

/// A day as long as one may be, in 64 lines. The first record is none that there is.
fn longest(alloc: Global) -> Result<Vec<u8>, AllocError> {
    let mut line = vec![in alloc; b'x'; 131_071]?;
    line.push(b'\n')?;
    let mut day = Vec::new(alloc);
    for _ in 0..64 {
        day.extend_from_slice(&line)?;
    }
    Ok(day)
}

#[test]
fn a_day_that_is_too_long(rt: HostRuntime) -> Result<(), Fail> {
    let alloc = rt.alloc();
    let mut day = longest(alloc)?;
    assert_audit(&rt, alloc, &day, b"", b"refused 1 Kind\n")?;
    day.push(b'\n')?;
    assert_audit(&rt, alloc, &day, b"", b"refused 0 TooLong\n")?;
    // That no line stands behind the day is told first.
    assert_line(&rt, alloc, &day, b"audit no 0 End\n")
}
