// The rows of open tasks.
ghost use Rattle.std.specs.Prelude.{◌≡◌, ◌≤◌, ◌<◌, length};
ghost use Rattle.crew_terms.specs.declared.TheConstants.{LAST_MINUTE};
ghost use Rattle.crew_io.specs.Puts.{Puts};
ghost use Rattle.plan_chart.specs.RowTexts.{open_bar, open_of, open_row, open_task, open_what, open_when};

use crate::rows::{clock, open_top};
use crew_instance::{Instance, Plan};
use crew_io::sink::{Sink, WriteFault};
use crew_terms::{Name, Task};
use each_out::{Piece, Writes, put_pieces};

/// What is open where, for how many minutes.
fn put_what<'a, K: Sink>(out: &mut K, place: &'a Name, task: &'a Task) -> Result<(), WriteFault>
    ensures { Puts K.Sink (open_what place.now task.now) out.old out.new result }
{
    put_pieces(
        out,
        &[
            Piece::Text(b"\n<g class='open'><title>"),
            Piece::Text(task.name.bytes()),
            Piece::Text(b" at "),
            Piece::Text(place.bytes()),
            Piece::Text(b" is open: "),
            Piece::Number(task.minutes as u64),
            Piece::Text(b" minutes, to begin from "),
        ],
    )
}

/// When it may begin, and how many teams it wants.
fn put_when<K: Sink>(out: &mut K, task: &Task) -> Result<(), WriteFault>
    requires earliest { task.now.earliest ≤ LAST_MINUTE }
    requires latest { task.now.latest ≤ LAST_MINUTE }
    ensures { Puts K.Sink (open_when task.now) out.old out.new result }
{
    let earliest = clock(task.earliest);
    let latest = clock(task.latest);
    put_pieces(
        out,
        &[
            Piece::Text(&earliest),
            Piece::Text(b" to "),
            Piece::Text(&latest),
            Piece::Text(b", teams wanted: "),
            Piece::Number(task.teams as u64),
            Piece::Text(b"</title>"),
        ],
    )
}

/// The name of an open task on the left, its bar over the time in which it may be done, and how many teams it wants.
fn put_bar<K: Sink>(out: &mut K, left: u32, top: u64, task: &Task) -> Result<(), WriteFault>
    requires latest { task.now.latest ≤ LAST_MINUTE }
    requires minutes { task.now.minutes ≤ LAST_MINUTE }
    requires low { top < 2_000_000_000_000 }
    ensures { Puts K.Sink (open_bar left top task.now) out.old out.new result }
{
    let window = task.latest.saturating_sub(task.earliest);
    put_pieces(
        out,
        &[
            Piece::Text(b"<text x='"),
            Piece::Number(left as u64),
            Piece::Text(b"' dx='-58' y='"),
            Piece::Number(top),
            Piece::Text(b"' dy='8'>"),
            Piece::Text(task.name.bytes()),
            Piece::Text(b"</text><rect x='"),
            Piece::Number(task.earliest as u64),
            Piece::Text(b"' y='"),
            Piece::Number(top + 1),
            Piece::Text(b"' width='"),
            Piece::Number((window + task.minutes) as u64),
            Piece::Text(b"' height='9'/><text x='"),
            Piece::Number(task.earliest as u64),
            Piece::Text(b"' dx='2' y='"),
            Piece::Number(top),
            Piece::Text(b"' dy='7'>"),
            Piece::Number(task.teams as u64),
            Piece::Text(b"</text></g>"),
        ],
    )
}

/// The row of an open task, of which this is the top.
fn put_open<K: Sink>(
    out: &mut K,
    left: u32,
    top: u64,
    place: &Name,
    task: &Task,
) -> Result<(), WriteFault>
    requires earliest { task.now.earliest ≤ LAST_MINUTE }
    requires latest { task.now.latest ≤ LAST_MINUTE }
    requires minutes { task.now.minutes ≤ LAST_MINUTE }
    requires low { top < 2_000_000_000_000 }
    ensures { Puts K.Sink (open_of left top place.now task.now) out.old out.new result }
{
    put_what(out, place, task)?;
    put_when(out, task)?;
    put_bar(out, left, top, task)
}

/// The row of open task `j`.
fn put_task<K: Sink>(
    out: &mut K,
    instance: &Instance,
    plan: &Plan,
    left: u32,
    j: u32,
) -> Result<(), WriteFault>
    requires task { j < length instance.now.tasks }
    requires plan { j < length plan.now }
    ensures { Puts K.Sink (open_task instance.now plan.now left j) out.old out.new result }
{
    let task = instance.task(j);
    let top = open_top(instance, plan, j);
    put_open(out, left, top, instance.place(task.place), task)
}

/// The rows of the open tasks, below those of the teams.
#[derive(Drop)]
pub struct Opens<'a> {
    /// The tasks.
    pub instance: &'a Instance,
    /// The jobs of those that are not open.
    pub plan: &'a Plan,
    /// The first minute of the chart.
    pub left: u32,
}

impl Writes<u32> for Opens<'_> {
    ghost use Rattle.std.specs.Prelude.{◌≡◌, ◌<◌, length};

    ghost text = { λ s j. open_row s.instance.now s.plan.now s.left j };

    ghost has_text = { λ s j. (j < length s.plan.now)
        × (length s.plan.now ≡ length s.instance.now.tasks) };

    fn write<K: Sink>(&self, out: &mut K, item: &u32) -> Result<(), WriteFault> {
        match self.plan.start(*item) {
            Some(_) => Ok(()),
            None => put_task(out, self.instance, self.plan, self.left, *item),
        }
    }
}
