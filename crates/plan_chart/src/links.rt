// The lines between teams that share a job.
ghost use Rattle.std.specs.Prelude.{◌≡◌, ◌<◌, length};
ghost use Rattle.crew_terms.specs.Plan.{job_of};
ghost use Rattle.crew_io.specs.Puts.{Puts};
ghost use Rattle.plan_chart.specs.RowTexts.{link_line, link_of_teams, link_text};

use crate::rows::row_top;
use crew_instance::Plan;
use crew_io::sink::{Sink, WriteFault};
use each_out::{Piece, Writes, put_pieces};

/// How far below the top of a row its middle is.
pub const MIDDLE: u64 = 5;

/// The line at a minute from the row of one team to that of another.
fn put_link<K: Sink>(out: &mut K, start: u32, first: u32, last: u32) -> Result<(), WriteFault>
    ensures { Puts K.Sink (link_line start first last) out.old out.new result }
{
    let from = row_top(first);
    let to = row_top(last);
    put_pieces(
        out,
        &[
            Piece::Text(b"\n<path class='link' d='M"),
            Piece::Number(start as u64),
            Piece::Text(b" "),
            Piece::Number(from + MIDDLE),
            Piece::Text(b"V"),
            Piece::Number(to + MIDDLE),
            Piece::Text(b"'/>"),
        ],
    )
}

/// The line of a job that begins at this minute, if these teams are several.
fn put_teams<K: Sink>(out: &mut K, start: u32, teams: &[u32]) -> Result<(), WriteFault>
    ensures { Puts K.Sink (link_of_teams start teams.now) out.old out.new result }
{
    if teams.len() > 1 {
        put_link(out, start, teams[0], teams[teams.len() - 1])
    } else {
        Ok(())
    }
}

/// For each job of several teams a line between them, at the minute at which it begins.
#[derive(Drop)]
pub struct Links<'a> {
    /// The jobs.
    pub plan: &'a Plan,
}

impl Writes<u32> for Links<'_> {
    ghost text = { λ s j. link_text s.plan.now j };

    ghost has_text = { λ s j. j < length s.plan.now };

    fn write<K: Sink>(&self, out: &mut K, item: &u32) -> Result<(), WriteFault> {
        match self.plan.start(*item) {
            Some(start) => put_teams(out, start, self.plan.teams(*item)),
            None => Ok(()),
        }
    }
}
