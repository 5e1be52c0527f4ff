// The runs of minutes at which no team's obstacle changes.
ghost use Rattle.std.specs.Prelude.{◌≡◌, ◌≤◌, ◌<◌, ◌-◌, length, OnOk};
ghost use Rattle.std.specs.List.{flat_map};
ghost use Rattle.crew_terms.specs.Instance.{task_of};
ghost use Rattle.crew_terms.specs.Words.{line_text};
ghost use Rattle.crew_io.specs.Puts.{Puts};
ghost use Rattle.why_not.specs.Fits.{obstacles_at};
ghost use Rattle.why_not.specs.Why.{are_same, ended_run, is_same, run_lines, run_start, run_words};

use crate::days::{Days, Row};
use crate::minutes::count_free;
use crate::words::{clock, put_teams, put_words};
use crew_io::put::put_all;
use crew_io::sink::{Sink, WriteFault};
use line_out::Part;
use team_days::Obstacle;

/// Whether the two are the same.
fn is_same(a: Obstacle, b: Obstacle) -> bool
    ensures { result ≡ is_same a b }
{
    match a {
        Obstacle::Free => matches!(b, Obstacle::Free),
        Obstacle::Skill => matches!(b, Obstacle::Skill),
        Obstacle::Shift => matches!(b, Obstacle::Shift),
        Obstacle::Busy(g) => matches!(b, Obstacle::Busy(h) if h == g),
    }
}

/// Whether the obstacles of each team are the same.
fn are_same(a: &[Obstacle], b: &[Obstacle]) -> bool
    requires { length a.now ≡ length b.now }
    ensures { result ≡ are_same a.now b.now }
{
    for k in 0..a.len() {
        if !is_same(a[k], b[k]) {
            return false;
        }
    }
    true
}

/// Writes the line of a run of minutes.
fn put_run<K: Sink>(
    out: &mut K,
    days: &Days<'_>,
    j: u32,
    first: u32,
    last: u32,
) -> Result<(), WriteFault>
    requires task { j < length days.now.instance.tasks }
    requires first { first ≤ (task_of days.now.instance j).latest }
    requires last { last ≤ (task_of days.now.instance j).latest }
    ensures { Puts K.Sink (line_text
        (run_words days.now.instance days.now.plan j first last)) out.old out.new result }
{
    let free = count_free(&days.row(j, first));
    let begins = clock(first);
    let ends = clock(last);
    put_words(
        out,
        &[
            Part::Word(b""),
            Part::Word(&begins),
            Part::Word(&ends),
            Part::Word(b"free"),
            Part::Number(free as u64),
        ],
    )?;
    put_teams(out, days, j, first)?;
    put_all(out, b"\n")
}

/// A run of minutes that goes on: where it began, and what keeps each team then.
#[derive(Drop)]
struct Run {
    first: u32,
    row: Row,
}

/// Writes the line of the run if minute `t` ends it, and begins the next one.
fn put_if_over<K: Sink>(
    out: &mut K,
    days: &Days<'_>,
    j: u32,
    run: &mut Run,
    t: u32,
) -> Result<(), WriteFault>
    requires task { j < length days.now.instance.tasks }
    requires later { 1 ≤ t }
    requires within { t ≤ (task_of days.now.instance j).latest }
    requires first { run.old.first ≤ (task_of days.now.instance j).latest }
    requires row { run.old.row.items
        ≡ obstacles_at days.now.instance days.now.plan j (t - 1) }
    ensures text { Puts K.Sink
        (ended_run days.now.instance days.now.plan j run.old.first t) out.old out.new result }
    ensures first { OnOk result
        (run.new.first ≡ run_start days.now.instance days.now.plan j run.old.first t) }
    ensures row { OnOk result
        (run.new.row.items ≡ obstacles_at days.now.instance days.now.plan j t) }
{
    let row = days.row(j, t);
    if are_same(&run.row, &row) {
        return Ok(());
    }
    put_run(out, days, j, run.first, t - 1)?;
    run.first = t;
    run.row = row;
    Ok(())
}

/// Writes the lines of the runs of task `j`.
pub(crate) fn put_runs<K: Sink>(out: &mut K, days: &Days<'_>, j: u32) -> Result<(), WriteFault>
    requires { j < length days.now.instance.tasks }
    ensures { Puts K.Sink (flat_map line_text (run_lines days.now.instance days.now.plan j))
        out.old out.new result }
{
    let task = days.instance().task(j);
    let first = task.earliest;
    let mut run = Run {
        first,
        row: days.row(j, first),
    };
    for t in first + 1..task.latest + 1 {
        put_if_over(out, days, j, &mut run, t)?;
    }
    put_run(out, days, j, run.first, task.latest)
}
