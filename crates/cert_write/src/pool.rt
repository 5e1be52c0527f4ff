// The lines of a pool of routes.
ghost use Rattle.std.specs.Prelude.{◌<◌, length};
ghost use Rattle.std.specs.List.{flat_map};
ghost use Rattle.crew_terms.specs.Words.{line_text};
ghost use Rattle.crew_io.specs.Puts.{Puts};
ghost use Rattle.dossier_terms.specs.Lines.{pool_lines, route_line, visit_words};
ghost use Rattle.line_out.specs.Parts.{next_word};
ghost use Rattle.route_terms.specs.Routes.{route_of};
ghost use Rattle.std.specs.Prelude.{map};

use column_arena::Columns;
use crew_io::put::put_all;
use crew_io::sink::{Sink, WriteFault};
use crew_terms::Visit;
use dossier_out::number;
use line_out::{Part, put_line, put_next};

/// The words of a visit, behind others of a line.
fn put_visit<K: Sink>(out: &mut K, visit: Visit) -> Result<(), WriteFault>
    ensures { Puts K.Sink (flat_map next_word (visit_words visit)) out.old out.new result }
{
    put_next(out, &number(visit.task))?;
    put_next(out, &number(visit.start))
}

/// The words of visits, behind others of a line.
fn put_visits<K: Sink>(out: &mut K, visits: &[Visit]) -> Result<(), WriteFault>
    ensures { Puts K.Sink (flat_map next_word (flat_map visit_words visits.now)) out.old
        out.new result }
{
    for visit in visits {
        put_visit(out, *visit)?;
    }
    Ok(())
}

/// The line of a route.
fn put_route<K: Sink>(out: &mut K, team: u32, visits: &[Visit]) -> Result<(), WriteFault>
    ensures { Puts K.Sink (line_text (route_line (route_of team visits.now))) out.old
        out.new result }
{
    put_all(out, b"route")?;
    put_next(out, &number(team))?;
    put_visits(out, visits)?;
    put_all(out, b"\n")
}

/// The lines of the columns.
fn put_routes<K: Sink, C: Columns>(out: &mut K, columns: &C) -> Result<(), WriteFault>
    ensures { Puts K.Sink (flat_map line_text (map route_line (C.columns columns.now))) out.old
        out.new result }
{
    for id in 0..columns.len() {
        put_route(out, columns.team(id), columns.visits(id))?;
    }
    Ok(())
}

/// The lines of a pool, of which the first routes are kept.
pub(crate) fn put_pool<K: Sink, C: Columns>(
    out: &mut K,
    columns: &C,
    kept: usize,
) -> Result<(), WriteFault>
    ensures { Puts K.Sink (flat_map line_text (pool_lines kept (C.columns columns.now))) out.old
        out.new result }
{
    let count = columns.len() as u64;
    put_line(
        out,
        &[
            Part::Word(b"pool"),
            Part::Number(kept as u64),
            Part::Number(count),
        ],
    )?;
    put_routes(out, columns)
}
