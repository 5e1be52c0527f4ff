// The roster of a plan, written.
#![tactic(auto)]

ghost use Rattle.std.specs.Prelude.{◌≡◌, ◌≤◌, ◌<◌, ◌+◌, ◌++◌, [], ◌∷◌, ℕ, length, map, All};
ghost use Rattle.std.specs.List.{filter, flat_map, range_with_len};
ghost use Rattle.arrayvec.specs.ArrayVec.{array_vec_len};
ghost use Rattle.crew_terms.specs.Words.{line_text};
ghost use Rattle.crew_terms.specs.Plan.{Does};
ghost use Rattle.crew_terms.specs.Legal.{IsLegal};
ghost use Rattle.crew_terms.specs.Rules.{IsInstance};
ghost use Rattle.crew_terms.specs.declared.TheConstants.{LAST_MINUTE, MOST_TEAMS_PER_TASK};
ghost use Rattle.crew_io.specs.Puts.{Puts};
ghost use Rattle.field_table.specs.Clocks.{clock_text};
ghost use Rattle.line_out.specs.Parts.{part_word};
ghost use Rattle.roster_print.specs.Roster.{is_unassigned, open_line, partner_words, roster_text, shift_line, summary_line, tasks_in_turn, team_lines, turn_line, unassigned_tasks};

use arrayvec::ArrayVec;
use crew_instance::{Instance, Plan, Turn, fill_turns, unassigned};
use crew_io::sink::{Sink, WriteFault};
use crew_terms::{LAST_MINUTE, MOST_TEAMS_PER_TASK};
use field_table::write_clock;
use line_out::{Part, put_line};

/// The most parts of a line: two blanks, when the task begins and ends, its name, its place, a word, and the teams.
const MOST_PARTS: usize = 7 + MOST_TEAMS_PER_TASK;

/// The parts of a line.
type Line<'a> = ArrayVec<Part<'a>, MOST_PARTS>;

/// A minute as a clock shows it.
fn clock(minute: u32) -> [u8; 5]
    requires { minute ≤ LAST_MINUTE }
    ensures { result ≡ clock_text minute }
{
    let mut text = [0u8; 5];
    write_clock(minute, &mut text);
    text
}

fn put_summary<K: Sink>(out: &mut K, instance: &Instance, plan: &Plan) -> Result<(), WriteFault>
    ensures { Puts K.Sink (line_text (summary_line instance.now plan.now)) out.old out.new result }
{
    let open = Part::Number(unassigned(plan) as u64);
    let tasks = Part::Number(instance.tasks() as u64);
    put_line(out, &[Part::Word(b"roster"), open, tasks])
}

fn put_shift<K: Sink>(out: &mut K, instance: &Instance, k: u32) -> Result<(), WriteFault>
    requires { k < length instance.now.teams }
    ensures { Puts K.Sink (line_text (shift_line instance.now k)) out.old out.new result }
{
    let team = instance.team(k);
    let from = clock(team.from);
    let until = clock(team.until);
    let name = Part::Word(team.name.bytes());
    put_line(
        out,
        &[
            Part::Word(b"team"),
            name,
            Part::Word(&from),
            Part::Word(&until),
        ],
    )
}

/// Adds the teams by which team `k` is joined.
fn push_partners<'a>(line: &mut Line<'a>, instance: &'a Instance, k: u32, teams: &[u32])
    requires room { array_vec_len line.old + 1 + MOST_TEAMS_PER_TASK ≤ MOST_PARTS }
    requires few { length teams.now ≤ MOST_TEAMS_PER_TASK }
    requires known { All (λ g. g < length instance.now.teams) teams.now }
    ensures { map part_word line.new.items
        ≡ map part_word line.old.items ++ partner_words instance.now k teams.now }
{
    if teams.len() <= 1 {
        return;
    }
    line.push(Part::Word(b"with"));
    for g in teams {
        if *g != k {
            line.push(Part::Word(instance.team(*g).name.bytes()));
        }
    }
}

/// The line of a task that team `k` does.
fn put_turn<K: Sink>(
    out: &mut K,
    instance: &Instance,
    plan: &Plan,
    k: u32,
    turn: Turn,
) -> Result<(), WriteFault>
    requires limits { IsInstance instance.now }
    requires legal { IsLegal instance.now plan.now }
    requires turn { Does plan.now k turn.task turn.start }
    ensures { Puts K.Sink (line_text (turn_line instance.now plan.now k turn.task))
        out.old out.new result }
{
    let task = instance.task(turn.task);
    let begins = clock(turn.start);
    let ends = clock(turn.start + task.minutes);
    let mut line = Line::new();
    line.push(Part::Word(b""));
    line.push(Part::Word(b""));
    line.push(Part::Word(&begins));
    line.push(Part::Word(&ends));
    line.push(Part::Word(task.name.bytes()));
    line.push(Part::Word(instance.place(task.place).bytes()));
    push_partners(&mut line, instance, k, plan.teams(turn.task));
    put_line(out, &line)
}

/// The lines of the tasks that team `k` does.
fn put_turns<K: Sink>(
    out: &mut K,
    instance: &Instance,
    plan: &Plan,
    k: u32,
) -> Result<(), WriteFault>
    requires limits { IsInstance instance.now }
    requires legal { IsLegal instance.now plan.now }
    ensures { Puts K.Sink (flat_map line_text
        (map (turn_line instance.now plan.now k) (tasks_in_turn plan.now k)))
        out.old out.new result }
{
    let mut turns = ArrayVec::new();
    fill_turns(plan, k, &mut turns);
    for turn in turns.as_slice() {
        put_turn(out, instance, plan, k, *turn)?;
    }
    Ok(())
}

fn put_team<K: Sink>(
    out: &mut K,
    instance: &Instance,
    plan: &Plan,
    k: u32,
) -> Result<(), WriteFault>
    requires limits { IsInstance instance.now }
    requires legal { IsLegal instance.now plan.now }
    requires team { k < length instance.now.teams }
    ensures { Puts K.Sink (flat_map line_text (team_lines instance.now plan.now k))
        out.old out.new result }
{
    put_shift(out, instance, k)?;
    put_turns(out, instance, plan, k)
}

fn put_teams<K: Sink>(out: &mut K, instance: &Instance, plan: &Plan) -> Result<(), WriteFault>
    requires { IsLegal instance.now plan.now }
    ensures { Puts K.Sink (flat_map line_text
        (flat_map (team_lines instance.now plan.now)
        (range_with_len 0 (length instance.now.teams))))
        out.old out.new result }
{
    for k in 0..instance.teams() as u32 {
        put_team(out, instance, plan, k)?;
    }
    Ok(())
}

/// The line of task `j`, if nobody does it.
fn put_if_open<K: Sink>(
    out: &mut K,
    instance: &Instance,
    plan: &Plan,
    j: u32,
) -> Result<(), WriteFault>
    requires task { j < length instance.now.tasks }
    requires plan { j < length plan.now }
    ensures { Puts K.Sink (flat_map line_text
        (map (open_line instance.now) (filter (is_unassigned plan.now) (j ∷ []))))
        out.old out.new result }
{
    if plan.start(j).is_some() {
        return Ok(());
    }
    let name = instance.task(j).name.bytes();
    put_line(out, &[Part::Word(b"open"), Part::Word(name)])
}

fn put_open<K: Sink>(out: &mut K, instance: &Instance, plan: &Plan) -> Result<(), WriteFault>
    requires { length plan.now ≡ length instance.now.tasks }
    ensures { Puts K.Sink (flat_map line_text
        (map (open_line instance.now) (unassigned_tasks plan.now)))
        out.old out.new result }
{
    for j in 0..plan.len() as u32 {
        put_if_open(out, instance, plan, j)?;
    }
    Ok(())
}

/// Writes the roster of a legal plan: how many tasks are unassigned and how many there are; for each team its shift, and
/// its tasks by start, each with when it begins and ends, where it is, and with which other teams; and the tasks that
/// nobody does. It takes no memory. After a fault, a front of the roster was written.
pub fn rosters<K: Sink>(out: &mut K, instance: &Instance, plan: &Plan) -> Result<(), WriteFault>
    requires { IsLegal instance.now plan.now }
    ensures { Puts K.Sink (roster_text instance.now plan.now) out.old out.new result }
{
    put_summary(out, instance, plan)?;
    put_teams(out, instance, plan)?;
    put_open(out, instance, plan)
}
