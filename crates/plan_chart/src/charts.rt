// The chart of a round.
ghost use Rattle.std.specs.Prelude.{◌≡◌};
ghost use Rattle.crew_terms.specs.Legal.{IsLegal};
ghost use Rattle.crew_io.specs.Puts.{Puts};
ghost use Rattle.plan_chart.specs.Charts.{chart_end, chart_text};

use crate::drawings::put_drawing;
use crate::headings::put_heading;
use crew_instance::{Instance, Plan, unassigned};
use crew_io::sink::{Sink, WriteFault};
use each_out::{Piece, put_pieces};
use round_changes::Round;

/// The end of a chart.
fn put_chart_end<K: Sink>(out: &mut K) -> Result<(), WriteFault>
    ensures { Puts K.Sink chart_end out.old out.new result }
{
    put_pieces(out, &[Piece::Text(b"\n</g></svg></div>\n</section>")])
}

/// Writes the chart of a round: of a legal plan, and of a bound on what every legal plan leaves open. Above it stand the number
/// of the round, how many tasks are open, and how many jobs are different since the round before, if there was one, by names. A
/// row for each team has its shift, and a bar for each of its jobs, from the minute at which it begins and as wide as its
/// minutes; below is a row for each open task. It takes no memory. After a fault, a front of the chart was written.
pub fn put_chart<K: Sink>(
    out: &mut K,
    round: u64,
    bound: u32,
    before: &Option<Round>,
    now: &Round,
    instance: &Instance,
    plan: &Plan,
) -> Result<(), WriteFault>
    requires { IsLegal instance.now plan.now }
    ensures { Puts K.Sink (chart_text round bound before.now now.now instance.now plan.now)
        out.old out.new result }
{
    let open = unassigned(plan);
    let tasks = instance.tasks() as u32;
    put_heading(out, round, open, tasks, bound, before, now)?;
    put_drawing(out, instance, plan, before, now)?;
    put_chart_end(out)
}
