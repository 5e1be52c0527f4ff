// The lines of a team's worth and potentials in a node.
ghost use Rattle.std.specs.Prelude.{◌<◌, [], ◌∷◌, filter, map};
ghost use Rattle.std.specs.List.{flat_map, range_with_len};
ghost use Rattle.crew_terms.specs.Limits.{tasks_in, teams_in};
ghost use Rattle.crew_terms.specs.Words.{line_text};
ghost use Rattle.crew_io.specs.Puts.{Puts};
ghost use Rattle.potentials.specs.Table.{IsTableOf};
ghost use Rattle.dossier_out.specs.Steps.{table_in};
ghost use Rattle.dossier_out.specs.Tables.{may_begin, row_line, team_lines};

use crate::steps::put_steps;
use crew_io::sink::{Sink, WriteFault};
use crew_laws::minutes_are_permitted;
use line_out::{Part, put_line};
use node_limits::Limits;
use potentials::Table;

/// The line of the potentials of task `j`, if the team may begin it.
fn put_if_open<K: Sink>(
    out: &mut K,
    limits: &Limits<'_>,
    k: u32,
    table: &Table,
    j: u32,
) -> Result<(), WriteFault>
    requires team { k < teams_in limits.now.limits }
    requires task { j < tasks_in limits.now.limits }
    requires table { IsTableOf limits.now.limits.instance table.now }
    ensures { Puts K.Sink (flat_map line_text
        (map (row_line limits.now.limits k table.now)
        (filter (may_begin limits.now.limits k) (j ∷ []))))
        out.old out.new result }
{
    minutes_are_permitted();
    // It is known from here on that no minute is past the last one of the day.
    let _day = limits.instance();
    match limits.minutes(k, j) {
        None => Ok(()),
        Some((first, last)) => put_steps(out, table, j, first, last + 1),
    }
}

/// The lines of the potentials of the tasks that the team may begin.
fn put_rows<K: Sink>(
    out: &mut K,
    limits: &Limits<'_>,
    k: u32,
    table: &Table,
) -> Result<(), WriteFault>
    requires team { k < teams_in limits.now.limits }
    requires table { IsTableOf limits.now.limits.instance table.now }
    ensures { Puts K.Sink (flat_map line_text
        (map (row_line limits.now.limits k table.now)
        (filter (may_begin limits.now.limits k) (range_with_len 0 (tasks_in limits.now.limits)))))
        out.old out.new result }
{
    for j in 0..limits.instance().tasks() as u32 {
        put_if_open(out, limits, k, table, j)?;
    }
    Ok(())
}

/// Writes the lines of team `k` in a node: its worth, and for each task that it may begin the table's potentials, by runs of
/// equal numbers; it takes no memory. After a fault, a front of them was written.
pub fn put_table<K: Sink>(
    out: &mut K,
    limits: &Limits<'_>,
    k: u32,
    worth: i64,
    table: &Table,
) -> Result<(), WriteFault>
    requires team { k < teams_in limits.now.limits }
    requires table { IsTableOf limits.now.limits.instance table.now }
    ensures { Puts K.Sink (flat_map line_text
        (team_lines limits.now.limits k (table_in limits.now.limits k worth table.now)))
        out.old out.new result }
{
    put_line(out, &[Part::Word(b"worth"), Part::Signed(worth)])?;
    put_rows(out, limits, k, table)
}
