// What stands above a chart.
ghost use Rattle.std.specs.Prelude.{◌≡◌};
ghost use Rattle.crew_io.specs.Puts.{Puts};
ghost use Rattle.plan_chart.specs.Headings.{best_text, counts_line, gap_text, heading_of, open_line, proof_of, since_of};

use crew_io::sink::{Sink, WriteFault};
use each_out::{Piece, put_pieces};
use round_changes::{Counts, Round, count_changes};

/// The number of the round, how many tasks are open of how many, and how many are in every plan.
fn put_open<K: Sink>(
    out: &mut K,
    round: u64,
    left_open: u32,
    tasks: u32,
    bound: u32,
) -> Result<(), WriteFault>
    ensures { Puts K.Sink (open_line round left_open tasks bound) out.old out.new result }
{
    put_pieces(
        out,
        &[
            Piece::Text(b"\n<section>\n<h2>Round "),
            Piece::Number(round),
            Piece::Text(b"</h2>\n<p>"),
            Piece::Number(left_open as u64),
            Piece::Text(b" of "),
            Piece::Number(tasks as u64),
            Piece::Text(b" open, at least "),
            Piece::Number(bound as u64),
            Piece::Text(b" in every plan: "),
        ],
    )
}

/// That this is proved best.
fn put_best<K: Sink>(out: &mut K) -> Result<(), WriteFault>
    ensures { Puts K.Sink best_text out.old out.new result }
{
    put_pieces(out, &[Piece::Text(b"proved best</p>")])
}

/// Between which numbers the best one lies.
fn put_gap<K: Sink>(out: &mut K, left_open: u32, bound: u32) -> Result<(), WriteFault>
    ensures { Puts K.Sink (gap_text left_open bound) out.old out.new result }
{
    put_pieces(
        out,
        &[
            Piece::Text(b"not yet proved: between "),
            Piece::Number(bound as u64),
            Piece::Text(b" and "),
            Piece::Number(left_open as u64),
            Piece::Text(b"</p>"),
        ],
    )
}

/// Whether this is proved best.
fn put_proof<K: Sink>(out: &mut K, left_open: u32, bound: u32) -> Result<(), WriteFault>
    ensures { Puts K.Sink (proof_of left_open bound) out.old out.new result }
{
    if left_open <= bound {
        put_best(out)
    } else {
        put_gap(out, left_open, bound)
    }
}

/// How many jobs are different since the round before.
fn put_counts<K: Sink>(out: &mut K, counts: Counts) -> Result<(), WriteFault>
    ensures { Puts K.Sink (counts_line counts) out.old out.new result }
{
    put_pieces(
        out,
        &[
            Piece::Text(b"\n<p>since the round before: "),
            Piece::Number(counts.moved as u64),
            Piece::Text(b" moved, "),
            Piece::Number(counts.others as u64),
            Piece::Text(b" by other teams, "),
            Piece::Number(counts.new as u64),
            Piece::Text(b" new, "),
            Piece::Number(counts.gone as u64),
            Piece::Text(b" gone</p>"),
        ],
    )
}

/// The same, if there was a round before.
fn put_since<K: Sink>(out: &mut K, before: &Option<Round>, now: &Round) -> Result<(), WriteFault>
    ensures { Puts K.Sink (since_of before.now now.now) out.old out.new result }
{
    match before {
        Some(before) => put_counts(out, count_changes(before, now)),
        None => Ok(()),
    }
}

/// What stands above the chart of a round: its number, how many of its tasks are open, whether this is proved best, and how many
/// jobs are different since the round before, if there was one.
pub fn put_heading<K: Sink>(
    out: &mut K,
    round: u64,
    left_open: u32,
    tasks: u32,
    bound: u32,
    before: &Option<Round>,
    now: &Round,
) -> Result<(), WriteFault>
    ensures { Puts K.Sink (heading_of round left_open tasks bound before.now now.now)
        out.old out.new result }
{
    put_open(out, round, left_open, tasks, bound)?;
    put_proof(out, left_open, bound)?;
    put_since(out, before, now)
}
