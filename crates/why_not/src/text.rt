// The text that tells why tasks are open.
ghost use Rattle.std.specs.Prelude.{◌≡◌, ◌≤◌, ◌<◌, ◌∷◌, [], length, IfSome};
ghost use Rattle.std.specs.List.{filter, flat_map};
ghost use Rattle.crew_terms.specs.Words.{line_text};
ghost use Rattle.crew_terms.specs.Legal.{IsLegal};
ghost use Rattle.crew_terms.specs.declared.TheConstants.{LAST_MINUTE};
ghost use Rattle.crew_io.specs.Puts.{Puts};
ghost use Rattle.roster_print.specs.Roster.{is_unassigned, unassigned_tasks};
ghost use Rattle.why_not.specs.Why.{fit_line, head_line, task_line, task_text, why_text};

use crate::days::Days;
use crate::minutes::first_fit_in;
use crate::runs::put_runs;
use crate::words::clock;
use crew_instance::{Instance, Plan, unassigned};
use crew_io::sink::{Sink, WriteFault};
use line_out::{Part, put_line};

fn put_head<K: Sink>(out: &mut K, instance: &Instance, plan: &Plan) -> Result<(), WriteFault>
    ensures { Puts K.Sink (line_text (head_line instance.now plan.now)) out.old out.new result }
{
    let open = Part::Number(unassigned(plan) as u64);
    let tasks = Part::Number(instance.tasks() as u64);
    put_line(out, &[Part::Word(b"why"), open, tasks])
}

fn put_name<K: Sink>(out: &mut K, instance: &Instance, j: u32) -> Result<(), WriteFault>
    requires { j < length instance.now.tasks }
    ensures { Puts K.Sink (line_text (task_line instance.now j)) out.old out.new result }
{
    let task = instance.task(j);
    let name = Part::Word(task.name.bytes());
    put_line(
        out,
        &[Part::Word(b"open"), name, Part::Number(task.teams as u64)],
    )
}

/// The line of the first minute that fits.
fn put_fit<K: Sink>(out: &mut K, fit: Option<u32>) -> Result<(), WriteFault>
    requires { IfSome fit (λ t. t ≤ LAST_MINUTE) }
    ensures { Puts K.Sink (line_text (fit_line fit)) out.old out.new result }
{
    let blank = Part::Word(b"");
    let fits = Part::Word(b"fits");
    match fit {
        Some(t) => {
            let at = clock(t);
            put_line(out, &[blank, blank, fits, Part::Word(&at)])
        }
        None => put_line(out, &[blank, blank, Part::Word(b"none"), fits]),
    }
}

/// Writes what is in the way of an open task.
fn put_task<K: Sink>(out: &mut K, days: &Days<'_>, j: u32) -> Result<(), WriteFault>
    requires { j < length days.now.instance.tasks }
    ensures { Puts K.Sink (task_text days.now.instance days.now.plan j) out.old out.new result }
{
    put_name(out, days.instance(), j)?;
    put_runs(out, days, j)?;
    put_fit(out, first_fit_in(days, j))
}

/// The same, if task `j` is open.
fn put_if_open<K: Sink>(out: &mut K, days: &Days<'_>, j: u32) -> Result<(), WriteFault>
    requires { j < length days.now.plan }
    ensures { Puts K.Sink (flat_map (task_text days.now.instance days.now.plan)
        (filter (is_unassigned days.now.plan) (j ∷ []))) out.old out.new result }
{
    if days.plan().start(j).is_some() {
        return Ok(());
    }
    put_task(out, days, j)
}

fn put_tasks<K: Sink>(out: &mut K, days: &Days<'_>) -> Result<(), WriteFault>
    ensures { Puts K.Sink (flat_map (task_text days.now.instance days.now.plan)
        (unassigned_tasks days.now.plan)) out.old out.new result }
{
    for j in 0..days.plan().len() as u32 {
        put_if_open(out, days, j)?;
    }
    Ok(())
}

/// Writes why tasks of a legal plan are open: how many are, and how many tasks there are; for each open task how many teams
/// it needs, each longest run of minutes of its window at which no team's obstacle changes, with how many teams are free
/// and what keeps each one, and the first minute at which enough are free, if there is one. It takes no memory. After a
/// fault, a front of the text was written.
pub fn why<K: Sink>(out: &mut K, instance: &Instance, plan: &Plan) -> Result<(), WriteFault>
    requires { IsLegal instance.now plan.now }
    ensures { Puts K.Sink (why_text instance.now plan.now) out.old out.new result }
{
    put_head(out, instance, plan)?;
    put_tasks(out, &Days::new(instance, plan))
}
