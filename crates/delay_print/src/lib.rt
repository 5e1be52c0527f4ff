// What late work does to a plan, written.
#![tactic(auto)]

ghost use Rattle.std.specs.Prelude.{◌≡◌, ◌≤◌, ◌<◌, ◌+◌, ◌++◌, [], ◌∷◌, ℕ, List, Some, length, map, IfSome, IsTrue};
ghost use Rattle.std.specs.List.{filter, flat_map};
ghost use Rattle.crew_terms.specs.declared.TheConstants.{MOST_TASKS};
ghost use Rattle.arrayvec.specs.ArrayVec.{array_vec_len};
ghost use Rattle.crew_terms.specs.Words.{line_text};
ghost use Rattle.crew_terms.specs.Legal.{IsLegal};
ghost use Rattle.crew_io.specs.Puts.{Puts};
ghost use Rattle.line_out.specs.Parts.{part_word};
ghost use Rattle.delay_wave.specs.declared.lates.Late.{Late};
ghost use Rattle.delay_wave.specs.Waits.{AreWaits, chain_within, holder_of};
ghost use Rattle.delay_print.specs.Texts.{AreKnown, delay_line, delay_words, delay_of, delays_text, is_late, late_tasks, names_of, wave_line};

use arrayvec::ArrayVec;
use crew_instance::{Instance, Plan, unassigned};
use crew_io::sink::{Sink, WriteFault};
use crew_terms::MOST_TASKS;
use delay_wave::{Waits, chains_are_tight};
use line_out::{Part, put_line};

/// The most parts of a line: a word, a name, two minutes, and a chain of names.
const MOST_PARTS: usize = 4 + MOST_TASKS + 1;

/// The parts of a line.
type Line<'a> = ArrayVec<Part<'a>, MOST_PARTS>;

/// The planned start of task `j` and the real one, where the task begins later than planned.
fn delay_at(plan: &Plan, waits: &Waits, j: u32) -> Option<(u32, u32)>
    requires plan { j < length plan.now }
    requires waits { j < length waits.now }
    ensures { result ≡ delay_of plan.now waits.now j }
{
    let planned = plan.start(j)?;
    let real = waits.start(j)?;
    if planned < real {
        Some((planned, real))
    } else {
        None
    }
}

/// How many tasks begin later than planned.
fn late_count(plan: &Plan, waits: &Waits) -> u32
    requires { length waits.now ≡ length plan.now }
    ensures { result ≡ length (late_tasks plan.now waits.now) }
{
    let mut count = 0;
    for j in 0..plan.len() as u32 {
        if delay_at(plan, waits, j).is_some() {
            count += 1;
        }
    }
    count
}

fn put_wave<K: Sink>(out: &mut K, plan: &Plan, waits: &Waits) -> Result<(), WriteFault>
    requires { length waits.now ≡ length plan.now }
    ensures { Puts K.Sink (line_text (wave_line plan.now waits.now)) out.old out.new result }
{
    let late = Part::Number(late_count(plan, waits) as u64);
    let assigned = Part::Number(plan.len() as u64 - unassigned(plan) as u64);
    put_line(out, &[Part::Word(b"wave"), late, assigned])
}

/// Adds the names of the tasks of the chain to task `j`, at most so many before it.
fn push_chain<'a>(line: &mut Line<'a>, instance: &'a Instance, waits: &Waits, j: u32, before: usize)
    requires room { array_vec_len line.old + before + 1 ≤ MOST_PARTS }
    requires task { j < length instance.now.tasks }
    requires known { AreKnown instance.now waits.now }
    ensures names { map part_word line.new.items
        ≡ map part_word line.old.items ++ names_of instance.now (chain_within waits.now before j) }
    ensures room { array_vec_len line.new ≤ array_vec_len line.old + before + 1 }
{
    if before > 0 {
        if let Some(holder) = waits.held_by(j) {
            push_chain(line, instance, waits, holder, before - 1);
        }
    }
    line.push(Part::Word(instance.task(j).name.bytes()));
}

/// The line of task `j`, which begins later than planned.
fn put_delay<K: Sink>(
    out: &mut K,
    instance: &Instance,
    waits: &Waits,
    j: u32,
    starts: (u32, u32),
) -> Result<(), WriteFault>
    requires task { j < length instance.now.tasks }
    requires few { length instance.now.tasks ≤ MOST_TASKS }
    requires known { AreKnown instance.now waits.now }
    ensures { Puts K.Sink (line_text (delay_words instance.now waits.now j starts))
        out.old out.new result }
{
    let mut line = Line::new();
    line.push(Part::Word(b"delay"));
    line.push(Part::Word(instance.task(j).name.bytes()));
    line.push(Part::Number(starts.0 as u64));
    line.push(Part::Number(starts.1 as u64));
    push_chain(&mut line, instance, waits, j, waits.len());
    put_line(out, &line)
}

/// The line of task `j`, if it begins later than planned.
fn put_if_late<K: Sink>(
    out: &mut K,
    instance: &Instance,
    plan: &Plan,
    waits: &Waits,
    j: u32,
) -> Result<(), WriteFault>
    requires task { j < length instance.now.tasks }
    requires plan { j < length plan.now }
    requires few { length instance.now.tasks ≤ MOST_TASKS }
    requires known { AreKnown instance.now waits.now }
    ensures { Puts K.Sink (flat_map line_text
        (map (delay_line instance.now plan.now waits.now)
        (filter (is_late plan.now waits.now) (j ∷ [])))) out.old out.new result }
{
    match delay_at(plan, waits, j) {
        Some(starts) => put_delay(out, instance, waits, j, starts),
        None => Ok(()),
    }
}

fn put_lates<K: Sink>(
    out: &mut K,
    instance: &Instance,
    plan: &Plan,
    waits: &Waits,
) -> Result<(), WriteFault>
    requires plan { length plan.now ≡ length instance.now.tasks }
    requires known { AreKnown instance.now waits.now }
    ensures { Puts K.Sink (flat_map line_text
        (map (delay_line instance.now plan.now waits.now) (late_tasks plan.now waits.now)))
        out.old out.new result }
{
    for j in 0..plan.len() as u32 {
        put_if_late(out, instance, plan, waits, j)?;
    }
    Ok(())
}

/// Writes what late work does to a legal plan of which these are the waits: how many tasks begin later than planned and how
/// many are assigned; and for each that begins later, by number, its name, its planned start and its real one, and the names
/// of the chain from a task that begins as planned to it, each of which waits for the one before. It takes no memory. After
/// a fault, a front of it was written.
pub fn put_delays<K: Sink>(
    out: &mut K,
    instance: &Instance,
    plan: &Plan,
    waits: &Waits,
) -> Result<(), WriteFault>
    requires legal { IsLegal instance.now plan.now }
    requires waits { (lates : List Late) × AreWaits instance.now plan.now lates waits.now }
    ensures { Puts K.Sink (delays_text instance.now plan.now waits.now) out.old out.new result }
{
    chains_are_tight();
    put_wave(out, plan, waits)?;
    put_lates(out, instance, plan, waits)
}
