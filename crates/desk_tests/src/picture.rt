// What `picture` answers and writes.
ghost use Rattle.std.specs.Prelude.{◌<◌, length};

use crate::answers::{answer, assert_status};
use crew_fixtures::dossiers::{TOGETHER, TWO_TASKS, WITH_POOL};
use crew_fixtures::{joined, text_of, with_line};
use crew_terms::Name;
use desk_cli::status::Status;
use std::process::Abort;
use std::test::Fail;

/// What a page without a chart ends with.
const NO_PLAN: &[u8] =
    b"\n<p>No good dossier came in: there is no plan to draw.</p>\n</body></html>\n";

/// The chart of two teams that do J together.
const ONE_LINK: &[u8] = b"
<section>
<h2>Round 1</h2>
<p>0 of 1 open, at least 0 in every plan: proved best</p>
<div><svg viewBox='-60 0 558 52' width='1116' height='104'><g transform='translate(-360)'>
<text x='360' dx='-58' y='16' dy='8'>T1</text><rect class='shift' x='360' y='16' width='480' height='11'><title>T1, 06:00 to 14:00</title></rect>
<text x='360' dx='-58' y='28' dy='8'>T2</text><rect class='shift' x='360' y='28' width='480' height='11'><title>T2, 06:00 to 14:00</title></rect>
<path class='hour' d='M360 12V52'/><text class='hour' x='360' y='8'>06:00</text>
<path class='hour' d='M420 12V52'/><text class='hour' x='420' y='8'>07:00</text>
<path class='hour' d='M480 12V52'/><text class='hour' x='480' y='8'>08:00</text>
<path class='hour' d='M540 12V52'/><text class='hour' x='540' y='8'>09:00</text>
<path class='hour' d='M600 12V52'/><text class='hour' x='600' y='8'>10:00</text>
<path class='hour' d='M660 12V52'/><text class='hour' x='660' y='8'>11:00</text>
<path class='hour' d='M720 12V52'/><text class='hour' x='720' y='8'>12:00</text>
<path class='hour' d='M780 12V52'/><text class='hour' x='780' y='8'>13:00</text>
<path class='hour' d='M840 12V52'/><text class='hour' x='840' y='8'>14:00</text>
<path class='link' d='M420 21V33'/>
<g class='joint c0'><title>J at G1, 07:00 to 07:30, by T1 T2</title>
<rect class='way' x='410' y='21' width='10' height='1'/>
<svg x='420' y='17' width='30' height='9'><rect width='100%' height='100%'/><text x='1' y='7'>J</text></svg>
<rect class='way' x='410' y='33' width='10' height='1'/>
<svg x='420' y='29' width='30' height='9'><rect width='100%' height='100%'/><text x='1' y='7'>J</text></svg></g>
</g></svg></div>
</section>
</body></html>
";

/// How often a part stands in a text.
fn times(text: &[u8], part: &[u8]) -> usize
    requires { 0 < length part.now }
{
    text.windows(part.len()).filter(|w| *w == part).count()
}

#[test]
fn two_teams_that_share_a_job(rt: HostRuntime) -> Result<(), Fail> {
    let input = text_of(rt.alloc(), TOGETHER)?;
    let (outcome, page) = answer(rt.alloc(), &["picture"], &input, &[], &[])?;
    assert_status(&rt, &outcome, Status::Done);
    assert!(rt; page.starts_with(b"<!DOCTYPE html>"));
    assert!(rt; page.ends_with(ONE_LINK));
    assert_eq!(rt; times(&page, b"<rect class='shift'"), 2);
    assert_eq!(rt; times(&page, b"<svg x='420'"), 2);
    assert_eq!(rt; times(&page, b"<path class='link'"), 1);
    Ok(())
}

#[test]
fn one_task_is_open(rt: HostRuntime) -> Result<(), Fail> {
    let input = text_of(rt.alloc(), WITH_POOL)?;
    let (outcome, page) = answer(rt.alloc(), &["picture"], &input, &[], &[])?;
    assert_status(&rt, &outcome, Status::Done);
    assert_eq!(rt;
        times(
            &page,
            b"<p>1 of 2 open, at least 1 in every plan: proved best</p>"
        ),
        1
    );
    assert_eq!(rt; times(&page, b"<g class='open'"), 1);
    assert_eq!(rt;
        times(
            &page,
            b"B at G1 is open: 30 minutes, to begin from 07:00 to 07:00, teams wanted: 1"
        ),
        1
    );
    assert_eq!(rt;
        times(&page, b"<rect x='420' y='33' width='30' height='9'/>"),
        1
    );
    Ok(())
}

#[test]
fn what_is_different_is_marked(rt: HostRuntime) -> Result<(), Fail> {
    let first = text_of(rt.alloc(), TWO_TASKS)?;
    let moved = with_line(rt.alloc(), TWO_TASKS, 13, b"do 0 430 0")?;
    let input = joined(rt.alloc(), &[&first, &moved])?;
    let (outcome, page) = answer(rt.alloc(), &["picture"], &input, &[], &[])?;
    assert_status(&rt, &outcome, Status::Done);
    assert_eq!(rt; times(&page, b"<section>"), 2);
    assert_eq!(rt;
        times(
            &page,
            b"<p>since the round before: 1 moved, 0 by other teams, 0 new, 0 gone</p>"
        ),
        1
    );
    assert_eq!(rt; times(&page, b"<rect class='mark'"), 1);
    assert_eq!(rt; times(&page, b", by T1, moved</title>"), 1);
    Ok(())
}

#[test]
fn nothing_is_drawn_of_a_dossier_that_is_refused(rt: HostRuntime) -> Result<(), Fail> {
    let first = text_of(rt.alloc(), TOGETHER)?;
    let low = with_line(rt.alloc(), WITH_POOL, 20, b"phi 1 839999999")?;
    let input = joined(rt.alloc(), &[&first, &low])?;
    let (outcome, page) = answer(rt.alloc(), &["picture"], &input, &[], &[])?;
    assert_status(&rt, &outcome, Status::No);
    assert!(rt; outcome.refusal.is_some());
    assert_eq!(rt; times(&page, b"<section>"), 1);
    assert!(rt; page.ends_with(ONE_LINK));
    Ok(())
}

#[test]
fn no_dossier_came_in(rt: HostRuntime) -> Result<(), Fail> {
    let (outcome, page) = answer(rt.alloc(), &["picture"], b"", &[], &[])?;
    assert_status(&rt, &outcome, Status::No);
    assert!(rt; page.starts_with(b"<!DOCTYPE html>"));
    assert!(rt; page.ends_with(NO_PLAN));
    assert_eq!(rt; times(&page, b"<section>"), 0);
    Ok(())
}

#[test]
fn names_need_no_escaping(rt: HostRuntime) -> Result<(), Fail> {
    for byte in b"<>&'\"" {
        assert!(rt; Name::read(&[b'A', *byte]).is_none());
    }
    Ok(())
}
