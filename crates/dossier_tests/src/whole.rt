// A small dossier line by line, with a pool, a split and closed leaves, and the ways in which lines end.
use crate::asserts::same;
use cert_checker::{Checker, Reason, Said, Stop, Verdict};
use crew_fixtures::dossiers::{HALF_BARE, WITH_POOL, WITH_WINDOW};
use crew_terms::{PlanVerdict, Visit};
use std::test::Fail;

/// What the dossier with a split and closed leaves says.
const SPLIT_SAYS: Verdict = Verdict {
    unassigned: 1,
    bound: 1,
    splits: 1,
    closed: 2,
    left_open: 0,
    unshown: 1,
};

/// What the dossier with a bare leaf says.
const HALF_BARE_SAYS: Verdict = Verdict {
    unassigned: 1,
    bound: 0,
    splits: 1,
    closed: 0,
    left_open: 2,
    unshown: 1,
};

/// What is said of one more line.
fn said_of(checker: &mut Checker, line: &[u8]) -> Result<Said, Fail> {
    if line.len() > 60 || line.contains(&b'\n') || checker.lines() > 1000 {
        return Err(Fail::from("the line"));
    }
    Ok(checker.line(line)?)
}

/// Reads lines of a good dossier before its last one.
fn read_most(checker: &mut Checker, lines: &[&[u8]]) -> Result<(), Fail> {
    for line in lines {
        let said = said_of(checker, line)?;
        if said != Said::More {
            return Err(Fail::from("a line of a good dossier"));
        }
    }
    Ok(())
}

/// The verdict on the whole dossier, with the numbers of tasks in its instance and in its plan, and what is said
/// where the input ends then.
type Kept = (Verdict, usize, usize, Option<Said>);

/// Reads the last line.
fn read_end(checker: &mut Checker) -> Result<Kept, Fail> {
    if checker.lines() > 1000 {
        return Err(Fail::from("the lines"));
    }
    let said = checker.line(b"end")?;
    let Said::Whole(verdict) = said else {
        return Err(Fail::from("the last line"));
    };
    if !checker.is_between() {
        return Err(Fail::from("a whole dossier"));
    }
    let tasks = checker.instance().tasks();
    let slots = checker.plan().len();
    Ok((
        verdict,
        tasks,
        slots,
        checker.stopped(Stop::End { partial: 0 }),
    ))
}

/// Reads a good dossier, whose last line is `end`, from these lines before it.
fn read_all(checker: &mut Checker, lines: &[&[u8]]) -> Result<Kept, Fail> {
    read_most(checker, lines)?;
    read_end(checker)
}

#[test]
fn reads_a_whole_dossier(rt: HostRuntime) -> Result<(), Fail> {
    let mut checker = Checker::open(rt.alloc())?;
    let kept = read_all(&mut checker, &WITH_WINDOW[..25]);
    drop(checker);
    same(&rt, &kept?, &(SPLIT_SAYS, 1, 1, None));
    Ok(())
}

#[test]
fn reads_prices_behind_a_bare_leaf(rt: HostRuntime) -> Result<(), Fail> {
    let mut checker = Checker::open(rt.alloc())?;
    let kept = read_all(&mut checker, &HALF_BARE[..19]);
    drop(checker);
    same(&rt, &kept?, &(HALF_BARE_SAYS, 1, 1, None));
    Ok(())
}

/// What is said of nine teams for a task that needs two.
fn said_of_nine_teams(checker: &mut Checker) -> Result<Said, Fail> {
    read_most(checker, &HALF_BARE[..10])?;
    read_most(checker, &[b"plan 0 0"])?;
    said_of(checker, b"do 0 420 0 1 0 1 0 1 0 1 0")
}

#[test]
fn refuses_nine_teams_for_a_task(rt: HostRuntime) -> Result<(), Fail> {
    let mut checker = Checker::open(rt.alloc())?;
    let said = said_of_nine_teams(&mut checker);
    drop(checker);
    same(
        &rt,
        &said?,
        &Said::No {
            line: 12,
            reason: Reason::Plan(PlanVerdict::Count(0)),
        },
    );
    Ok(())
}

#[test]
fn is_refused_where_a_line_is_too_long(rt: HostRuntime) -> Result<(), Fail> {
    let mut checker = Checker::open(rt.alloc())?;
    let said = checker.stopped(Stop::TooLong);
    drop(checker);
    same(
        &rt,
        &said,
        &Some(Said::No {
            line: 1,
            reason: Reason::TooLong,
        }),
    );
    Ok(())
}

/// The node budget of a whole dossier, how many routes of its pool are kept, how many it has, and the team of the last one
/// with its first visit.
type Pooled = (u32, usize, usize, Option<(u32, Visit)>);

/// What the checker tells of the dossier that is whole.
fn pooled(checker: &Checker) -> Result<Pooled, Fail> {
    if !checker.is_between() {
        return Err(Fail::from("a whole dossier"));
    }
    let count = checker.pool_len();
    if count == 0 {
        return Ok((checker.nodes(), checker.kept(), count, None));
    }
    let (team, visits) = checker.route(count - 1);
    let last = match visits.first() {
        Some(visit) => Some((team, *visit)),
        None => None,
    };
    Ok((checker.nodes(), checker.kept(), count, last))
}

/// Reads a dossier of whose two routes the first is kept.
fn read_pooled(checker: &mut Checker) -> Result<Pooled, Fail> {
    read_most(checker, &WITH_POOL[..9])?;
    read_most(checker, &[b"pool 1 2"])?;
    read_most(checker, &WITH_POOL[10..20])?;
    let _end = said_of(checker, b"end")?;
    pooled(checker)
}

#[test]
fn tells_the_budget_and_the_pool(rt: HostRuntime) -> Result<(), Fail> {
    let mut checker = Checker::open(rt.alloc())?;
    let told = read_pooled(&mut checker);
    drop(checker);
    let last = Visit {
        task: 1,
        start: 420,
    };
    same(&rt, &told?, &(1, 1, 2, Some((0, last))));
    Ok(())
}

#[test]
fn counts_the_lines_of_a_front(rt: HostRuntime) -> Result<(), Fail> {
    let mut checker = Checker::open_at(rt.alloc(), 3)?;
    let said = said_of(&mut checker, b"crew dossier 3");
    drop(checker);
    same(
        &rt,
        &said?,
        &Said::No {
            line: 4,
            reason: Reason::Shape,
        },
    );
    Ok(())
}
