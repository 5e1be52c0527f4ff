// The lines of an instance, written.
ghost use Rattle.std.specs.Prelude.{◌≡◌, ◌≤◌, ◌<◌, ◌+◌, ◌++◌, [], map, length, slice_index_or};
ghost use Rattle.std.specs.List.{flat_map};
ghost use Rattle.std.specs.Fmt.{decimal};
ghost use Rattle.arrayvec.specs.ArrayVec.{array_vec_len};
ghost use Rattle.crew_terms.specs.Words.{line_text};
ghost use Rattle.crew_io.specs.Puts.{Puts};
ghost use Rattle.dossier_terms.specs.Dossier.{skills_of};
ghost use Rattle.dossier_terms.specs.Lines.{instance_text, size_line, size_of, place_line, travel_line, team_line, task_line};
ghost use Rattle.line_out.specs.Parts.{part_word};

use arrayvec::ArrayVec;
use crew_instance::Instance;
use crew_io::sink::{Sink, WriteFault};
use crew_terms::{MOST_PLACES, SKILLS, Task, Team};
use dossier_out::number;
use line_out::{Part, put_line};

/// The most parts of a line of an instance: a word, and a travel time to each place.
const MOST_PARTS: usize = MOST_PLACES + 1;

/// The parts of a line of an instance.
type Line<'a> = ArrayVec<Part<'a>, MOST_PARTS>;

fn put_size<K: Sink>(out: &mut K, instance: &Instance, nodes: u32) -> Result<(), WriteFault>
    ensures { Puts K.Sink (line_text (size_line (size_of instance.now nodes)))
        out.old out.new result }
{
    let teams = number(instance.teams() as u32);
    let tasks = number(instance.tasks() as u32);
    let places = number(instance.places() as u32);
    put_line(
        out,
        &[Part::Word(b"size"), teams, tasks, places, number(nodes)],
    )
}

fn put_places<K: Sink>(out: &mut K, instance: &Instance) -> Result<(), WriteFault>
    ensures { Puts K.Sink (flat_map line_text (map place_line instance.now.places))
        out.old out.new result }
{
    for p in 0..instance.places() as u32 {
        let name = instance.place(p).bytes();
        put_line(out, &[Part::Word(b"place"), Part::Word(name)])?;
    }
    Ok(())
}

/// The line of the travel times from a place.
fn put_travel<K: Sink>(out: &mut K, instance: &Instance, a: u32) -> Result<(), WriteFault>
    requires { a < length instance.now.places }
    ensures { Puts K.Sink (line_text (travel_line (slice_index_or instance.now.travel a [])))
        out.old out.new result }
{
    let mut line = Line::new();
    line.push(Part::Word(b"travel"));
    for b in 0..instance.places() as u32 {
        line.push(number(instance.travel(a, b)));
    }
    put_line(out, &line)
}

fn put_travels<K: Sink>(out: &mut K, instance: &Instance) -> Result<(), WriteFault>
    ensures { Puts K.Sink (flat_map line_text (map travel_line instance.now.travel))
        out.old out.new result }
{
    for a in 0..instance.places() as u32 {
        put_travel(out, instance, a)?;
    }
    Ok(())
}

/// Adds the numbers of the skills of a set, rising.
fn push_skills(line: &mut Line<'_>, skills: u64)
    requires { array_vec_len line.old + SKILLS ≤ MOST_PARTS }
    ensures { map part_word line.new.items
        ≡ map part_word line.old.items ++ map decimal (skills_of skills) }
{
    for s in 0..SKILLS {
        if skills >> s & 1 == 1 {
            line.push(number(s));
        }
    }
}

fn put_team<K: Sink>(out: &mut K, team: &Team) -> Result<(), WriteFault>
    ensures { Puts K.Sink (line_text (team_line team.now)) out.old out.new result }
{
    let mut line = Line::new();
    line.push(Part::Word(b"team"));
    line.push(Part::Word(team.name.bytes()));
    line.push(number(team.home));
    line.push(number(team.from));
    line.push(number(team.until));
    push_skills(&mut line, team.skills);
    put_line(out, &line)
}

fn put_teams<K: Sink>(out: &mut K, instance: &Instance) -> Result<(), WriteFault>
    ensures { Puts K.Sink (flat_map line_text (map team_line instance.now.teams))
        out.old out.new result }
{
    for k in 0..instance.teams() as u32 {
        put_team(out, instance.team(k))?;
    }
    Ok(())
}

fn put_task<K: Sink>(out: &mut K, task: &Task) -> Result<(), WriteFault>
    ensures { Puts K.Sink (line_text (task_line task.now)) out.old out.new result }
{
    let mut line = Line::new();
    line.push(Part::Word(b"task"));
    line.push(Part::Word(task.name.bytes()));
    line.push(number(task.place));
    line.push(number(task.earliest));
    line.push(number(task.latest));
    line.push(number(task.minutes));
    line.push(number(task.teams));
    push_skills(&mut line, task.skills);
    put_line(out, &line)
}

fn put_tasks<K: Sink>(out: &mut K, instance: &Instance) -> Result<(), WriteFault>
    ensures { Puts K.Sink (flat_map line_text (map task_line instance.now.tasks))
        out.old out.new result }
{
    for j in 0..instance.tasks() as u32 {
        put_task(out, instance.task(j))?;
    }
    Ok(())
}

/// Writes the lines of an instance, from `size` with its node budget to the last `task`; it takes no memory.
/// After a fault, a front of them was written.
pub fn write_instance<K: Sink>(
    out: &mut K,
    instance: &Instance,
    nodes: u32,
) -> Result<(), WriteFault>
    ensures { Puts K.Sink (instance_text instance.now nodes) out.old out.new result }
{
    put_size(out, instance, nodes)?;
    put_places(out, instance)?;
    put_travels(out, instance)?;
    put_teams(out, instance)?;
    put_tasks(out, instance)
}
