// What is told of a job where one points at it.
ghost use Rattle.std.specs.Prelude.{◌≡◌, ◌≤◌, ◌<◌, ◌+◌, length, All};
ghost use Rattle.crew_terms.specs.Instance.{task_of};
ghost use Rattle.crew_terms.specs.declared.TheConstants.{LAST_MINUTE};
ghost use Rattle.crew_io.specs.Puts.{Puts};
ghost use Rattle.plan_chart.specs.Titles.{ending_of, name_of, title_of, what_of, when_of, work_of};

use crate::looks::Look;
use crate::rows::clock;
use crew_instance::Instance;
use crew_io::sink::{Sink, WriteFault};
use crew_terms::{Name, Task};
use each_out::{Piece, Writes, put_each, put_pieces};

/// What is done where.
fn put_what<'a, K: Sink>(
    out: &mut K,
    look: Look,
    place: &'a Name,
    task: &'a Task,
) -> Result<(), WriteFault>
    ensures { Puts K.Sink (what_of look place.now task.now) out.old out.new result }
{
    put_pieces(
        out,
        &[
            Piece::Text(b"\n<g class='"),
            Piece::Text(look.kind()),
            Piece::Number(look.colour as u64),
            Piece::Text(b"'><title>"),
            Piece::Text(task.name.bytes()),
            Piece::Text(b" at "),
            Piece::Text(place.bytes()),
        ],
    )
}

/// From when until when.
fn put_when<K: Sink>(out: &mut K, start: u32, minutes: u32) -> Result<(), WriteFault>
    requires { start + minutes ≤ LAST_MINUTE }
    ensures { Puts K.Sink (when_of start minutes) out.old out.new result }
{
    let begins = clock(start);
    let ends = clock(start + minutes);
    put_pieces(
        out,
        &[
            Piece::Text(b", "),
            Piece::Text(&begins),
            Piece::Text(b" to "),
            Piece::Text(&ends),
            Piece::Text(b", by"),
        ],
    )
}

/// What is done where, and from when until when.
fn put_work<K: Sink>(
    out: &mut K,
    look: Look,
    place: &Name,
    task: &Task,
    start: u32,
) -> Result<(), WriteFault>
    requires { start + task.now.minutes ≤ LAST_MINUTE }
    ensures { Puts K.Sink (work_of look place.now task.now start) out.old out.new result }
{
    put_what(out, look, place, task)?;
    put_when(out, start, task.minutes)
}

/// The names of teams, each behind a space.
#[derive(Drop)]
struct Names<'a> {
    instance: &'a Instance,
}

impl Writes<u32> for Names<'_> {
    ghost text = { λ s k. name_of s.instance.now k };

    ghost has_text = { λ s k. k < length s.instance.now.teams };

    fn write<K: Sink>(&self, out: &mut K, item: &u32) -> Result<(), WriteFault> {
        let team = self.instance.team(*item);
        put_pieces(out, &[Piece::Text(b" "), Piece::Text(team.name.bytes())])
    }
}

/// Whether it is fixed, and what is different about it.
fn put_ending<K: Sink>(out: &mut K, look: Look) -> Result<(), WriteFault>
    ensures { Puts K.Sink (ending_of look) out.old out.new result }
{
    put_pieces(
        out,
        &[
            Piece::Text(look.said_fixed()),
            Piece::Text(look.said_change()),
            Piece::Text(b"</title>"),
        ],
    )
}

/// What is told of the job of task `j` that begins at this minute, by these teams.
pub fn put_title<K: Sink>(
    out: &mut K,
    instance: &Instance,
    look: Look,
    j: u32,
    start: u32,
    teams: &[u32],
) -> Result<(), WriteFault>
    requires task { j < length instance.now.tasks }
    requires day { start + (task_of instance.now j).minutes ≤ LAST_MINUTE }
    requires known { All (λ k. k < length instance.now.teams) teams.now }
    ensures { Puts K.Sink (title_of instance.now look j start teams.now) out.old out.new result }
{
    let task = instance.task(j);
    put_work(out, look, instance.place(task.place), task, start)?;
    put_each(out, &Names { instance }, teams)?;
    put_ending(out, look)
}
