// The lines of jobs: of the frozen ones of an instance, and of those of a plan.
ghost use Rattle.std.specs.Prelude.{◌≡◌, ◌≤◌, ◌<◌, length, map};
ghost use Rattle.std.specs.List.{flat_map};
ghost use Rattle.crew_terms.specs.Words.{line_text};
ghost use Rattle.crew_terms.specs.Plan.{job_of};
ghost use Rattle.crew_io.specs.Puts.{Puts};
ghost use Rattle.dossier_terms.specs.Lines.{do_line, frozen_lines, jobs_from, keep_line, plan_lines};
ghost use Rattle.dossier_terms.specs.declared.DossierForm.TheVariants.{Two};
ghost use Rattle.dossier_out.specs.Jobs.{job_list};

use crate::words::{number, put_counts};
use crew_instance::{Instance, Plan, unassigned};
use crew_io::sink::{Sink, WriteFault};
use line_out::{Part, put_line};

/// The line of the frozen job of task `j`, if it has one.
fn put_if_frozen<K: Sink>(out: &mut K, instance: &Instance, j: u32) -> Result<(), WriteFault>
    requires { j < length instance.now.tasks }
    ensures { Puts K.Sink (flat_map line_text
        (map keep_line (job_list j (job_of instance.now.frozen j))))
        out.old out.new result }
{
    match instance.frozen(j) {
        None => Ok(()),
        Some((start, teams)) => put_counts(out, b"keep", j, start, teams),
    }
}

/// The lines of the frozen jobs.
fn put_kept<K: Sink>(out: &mut K, instance: &Instance) -> Result<(), WriteFault>
    ensures { Puts K.Sink (flat_map line_text (map keep_line (jobs_from 0 instance.now.frozen)))
        out.old out.new result }
{
    for j in 0..instance.tasks() as u32 {
        put_if_frozen(out, instance, j)?;
    }
    Ok(())
}

/// 1 where task `j` has a frozen job, else 0.
fn count_if_frozen(instance: &Instance, j: u32) -> u32
    requires { j < length instance.now.tasks }
    ensures number { result ≡ length (job_list j (job_of instance.now.frozen j)) }
    ensures one { result ≤ 1 }
{
    match instance.frozen(j) {
        None => 0,
        Some(_) => 1,
    }
}

/// How many tasks have a frozen job.
fn count_frozen(instance: &Instance) -> u32
    ensures { result ≡ length (jobs_from 0 instance.now.frozen) }
{
    let mut count = 0;
    for j in 0..instance.tasks() as u32 {
        count += count_if_frozen(instance, j);
    }
    count
}

/// Writes the lines of the frozen jobs of an instance, behind the line that tells how many there are; it takes no memory.
/// After a fault, a front of them was written.
pub fn put_frozen<K: Sink>(out: &mut K, instance: &Instance) -> Result<(), WriteFault>
    ensures { Puts K.Sink (flat_map line_text (frozen_lines Two instance.now.frozen)) out.old
        out.new result }
{
    put_line(
        out,
        &[Part::Word(b"frozen"), number(count_frozen(instance))],
    )?;
    put_kept(out, instance)
}

/// The line of task `j`, if the plan has it begun.
fn put_if_begun<K: Sink>(out: &mut K, plan: &Plan, j: u32) -> Result<(), WriteFault>
    requires { j < length plan.now }
    ensures { Puts K.Sink (flat_map line_text (map do_line (job_list j (job_of plan.now j))))
        out.old out.new result }
{
    match plan.start(j) {
        None => Ok(()),
        Some(start) => put_counts(out, b"do", j, start, plan.teams(j)),
    }
}

/// The lines of the tasks that the plan has begun.
fn put_begun<K: Sink>(out: &mut K, plan: &Plan) -> Result<(), WriteFault>
    ensures { Puts K.Sink (flat_map line_text (map do_line (jobs_from 0 plan.now))) out.old
        out.new result }
{
    for j in 0..plan.len() as u32 {
        put_if_begun(out, plan, j)?;
    }
    Ok(())
}

/// Writes the lines of a plan: how many tasks it leaves unassigned, with the bound, and then each task that it has begun; it
/// takes no memory. After a fault, a front of them was written.
pub fn put_plan<K: Sink>(out: &mut K, plan: &Plan, bound: u32) -> Result<(), WriteFault>
    ensures { Puts K.Sink (flat_map line_text (plan_lines plan.now bound)) out.old out.new result }
{
    let open = number(unassigned(plan));
    put_line(out, &[Part::Word(b"plan"), open, number(bound)])?;
    put_begun(out, plan)
}
