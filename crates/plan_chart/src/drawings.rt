// What is drawn of a plan.
ghost use Rattle.std.specs.Prelude.{◌≡◌, ◌≤◌, ◌<◌, ◌*◌, length};
ghost use Rattle.crew_terms.specs.Legal.{IsLegal};
ghost use Rattle.crew_terms.specs.declared.TheConstants.{LAST_MINUTE};
ghost use Rattle.crew_io.specs.Puts.{Puts};
ghost use Rattle.plan_chart.specs.Drawings.{bottom_of, drawing_of, frame_of, ground_of, hours_text, work_of};

use crate::hours::{Hours, hours_of};
use crate::jobs::Jobs;
use crate::links::Links;
use crate::opens::Opens;
use crate::rows::open_top;
use crate::shifts::{HourLines, Shifts};
use crew_instance::{Instance, Plan};
use crew_io::sink::{Sink, WriteFault};
use each_out::{Piece, put_numbered, put_pieces};
use round_changes::Round;

/// The room for names left of the first hour.
pub const NAMES: u64 = 60;

/// What is left free right of the last hour.
pub const EDGE: u64 = 18;

/// What is left free below the last row.
pub const FOOT: u64 = 8;

/// The frame of a chart with these hours, of which this is the height: each minute is two points wide on a screen.
fn put_frame<K: Sink>(out: &mut K, hours: Hours, bottom: u64) -> Result<(), WriteFault>
    requires first { hours.first * 60 ≤ LAST_MINUTE }
    requires last { hours.last * 60 ≤ LAST_MINUTE }
    requires low { bottom < 3_000_000_000_000 }
    ensures { Puts K.Sink (frame_of hours bottom) out.old out.new result }
{
    let left = hours.first * 60;
    let minutes = (hours.last * 60).saturating_sub(left);
    let width = minutes as u64 + NAMES + EDGE;
    put_pieces(
        out,
        &[
            Piece::Text(b"\n<div><svg viewBox='-60 0 "),
            Piece::Number(width),
            Piece::Text(b" "),
            Piece::Number(bottom),
            Piece::Text(b"' width='"),
            Piece::Number(2 * width),
            Piece::Text(b"' height='"),
            Piece::Number(2 * bottom),
            Piece::Text(b"'><g transform='translate(-"),
            Piece::Number(left as u64),
            Piece::Text(b")'>"),
        ],
    )
}

/// The lines of these hours.
fn put_hours<K: Sink>(out: &mut K, hours: Hours, bottom: u64) -> Result<(), WriteFault>
    requires { hours.last * 60 ≤ LAST_MINUTE }
    ensures { Puts K.Sink (hours_text hours bottom) out.old out.new result }
{
    let lines = HourLines {
        first: hours.first,
        bottom,
    };
    let count = (hours.last + 1).saturating_sub(hours.first);
    put_numbered(out, &lines, count)
}

/// What lies under the jobs: the shifts of the teams, the hours, and the lines between teams that share a job.
fn put_ground<K: Sink>(
    out: &mut K,
    instance: &Instance,
    plan: &Plan,
    hours: Hours,
    bottom: u64,
) -> Result<(), WriteFault>
    requires first { hours.first * 60 ≤ LAST_MINUTE }
    requires last { hours.last * 60 ≤ LAST_MINUTE }
    ensures { Puts K.Sink (ground_of instance.now plan.now hours bottom) out.old out.new result }
{
    let left = hours.first * 60;
    put_numbered(out, &Shifts { instance, left }, instance.teams() as u32)?;
    put_hours(out, hours, bottom)?;
    put_numbered(out, &Links { plan }, plan.len() as u32)
}

/// The jobs, and the open tasks.
fn put_work<K: Sink>(
    out: &mut K,
    instance: &Instance,
    plan: &Plan,
    before: &Option<Round>,
    now: &Round,
    left: u32,
) -> Result<(), WriteFault>
    requires { IsLegal instance.now plan.now }
    ensures { Puts K.Sink (work_of instance.now plan.now before.now now.now left)
        out.old out.new result }
{
    let jobs = Jobs {
        instance,
        plan,
        before,
        now,
    };
    let tasks = instance.tasks() as u32;
    put_numbered(out, &jobs, tasks)?;
    let opens = Opens {
        instance,
        plan,
        left,
    };
    put_numbered(out, &opens, tasks)
}

/// How high a chart is: the row of an open task more would begin there, but for what is left free.
fn bottom(instance: &Instance, plan: &Plan) -> u64
    ensures bottom { result ≡ bottom_of instance.now plan.now }
    ensures low { result < 3_000_000_000_000 }
{
    open_top(instance, plan, plan.len() as u32) + FOOT
}

/// What is drawn of a legal plan. What is different since the round before is marked.
pub fn put_drawing<K: Sink>(
    out: &mut K,
    instance: &Instance,
    plan: &Plan,
    before: &Option<Round>,
    now: &Round,
) -> Result<(), WriteFault>
    requires { IsLegal instance.now plan.now }
    ensures { Puts K.Sink (drawing_of instance.now plan.now before.now now.now)
        out.old out.new result }
{
    let hours = hours_of(instance);
    let bottom = bottom(instance, plan);
    put_frame(out, hours, bottom)?;
    put_ground(out, instance, plan, hours, bottom)?;
    put_work(out, instance, plan, before, now, hours.first * 60)
}
