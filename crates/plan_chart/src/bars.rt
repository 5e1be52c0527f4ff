// The bar of a job in the row of one of its teams, and the way there.
ghost use Rattle.std.specs.Prelude.{◌≡◌, ◌≤◌, ◌<◌, length};
ghost use Rattle.crew_io.specs.Puts.{Puts};
ghost use Rattle.plan_chart.specs.Bars.{bar_of, box_of, way_of};

use crate::looks::Look;
use crate::rows::row_top;
use crate::ways::minutes_there;
use crew_instance::{Instance, Plan};
use crew_io::sink::{Sink, WriteFault};
use crew_terms::Task;
use each_out::{Piece, Writes, put_pieces};

/// How far below the top of a row the thin line of a way is.
pub const MIDDLE: u64 = 5;

/// A thin line over these minutes, up to the start.
fn put_way<K: Sink>(out: &mut K, top: u64, start: u32, minutes: u32) -> Result<(), WriteFault>
    requires { top < 1_000_000_000_000 }
    ensures { Puts K.Sink (way_of top start minutes) out.old out.new result }
{
    let from = start.saturating_sub(minutes);
    put_pieces(
        out,
        &[
            Piece::Text(b"\n<rect class='way' x='"),
            Piece::Number(from as u64),
            Piece::Text(b"' y='"),
            Piece::Number(top + MIDDLE),
            Piece::Text(b"' width='"),
            Piece::Number(minutes as u64),
            Piece::Text(b"' height='1'/>"),
        ],
    )
}

/// The bar from the start on, as wide as the task's minutes, with its name, which is cut off where the bar ends.
fn put_box<K: Sink>(
    out: &mut K,
    look: Look,
    top: u64,
    task: &Task,
    start: u32,
) -> Result<(), WriteFault>
    requires { top < 1_000_000_000_000 }
    ensures { Puts K.Sink (box_of look top task.now start) out.old out.new result }
{
    put_pieces(
        out,
        &[
            Piece::Text(b"\n<svg x='"),
            Piece::Number(start as u64),
            Piece::Text(b"' y='"),
            Piece::Number(top + 1),
            Piece::Text(b"' width='"),
            Piece::Number(task.minutes as u64),
            Piece::Text(b"' height='9'><rect width='100%' height='100%'/>"),
            Piece::Text(look.sign_fixed()),
            Piece::Text(b"<text x='1' y='7'>"),
            Piece::Text(task.name.bytes()),
            Piece::Text(b"</text>"),
            Piece::Text(look.sign_change()),
            Piece::Text(b"</svg>"),
        ],
    )
}

/// A bar of the job of task `j` that begins at this minute, in the row of each of its teams.
#[derive(Drop)]
pub(crate) struct Bars<'a> {
    pub instance: &'a Instance,
    pub plan: &'a Plan,
    pub look: Look,
    pub j: u32,
    pub start: u32,
}

impl Writes<u32> for Bars<'_> {
    ghost use Rattle.std.specs.Prelude.{◌≡◌, ◌<◌, length};

    ghost text = { λ s k. bar_of s.instance.now s.plan.now s.look s.j s.start k };

    ghost has_text = { λ s k. (k < length s.instance.now.teams)
        × (s.j < length s.instance.now.tasks)
        × (length s.plan.now ≡ length s.instance.now.tasks) };

    fn write<K: Sink>(&self, out: &mut K, item: &u32) -> Result<(), WriteFault> {
        let top = row_top(*item);
        let way = minutes_there(self.instance, self.plan, *item, self.j, self.start);
        put_way(out, top, self.start, way)?;
        put_box(out, self.look, top, self.instance.task(self.j), self.start)
    }
}
