// What changed from a round to the next, written.
#![tactic(auto)]

ghost use Rattle.std.specs.Prelude.{◌≡◌, ◌≤◌, ◌+◌, ◌==◌, ◌&&◌, ◌++◌, ⊤, length, map};
ghost use Rattle.std.specs.Option.{option_copied};
ghost use Rattle.arrayvec.specs.ArrayVec.{array_vec_len};
ghost use Rattle.crew_terms.specs.Words.{line_text};
ghost use Rattle.crew_terms.specs.declared.TheConstants.{LAST_MINUTE, MOST_TEAMS_PER_TASK};
ghost use Rattle.crew_io.specs.Puts.{Puts};
ghost use Rattle.field_table.specs.Clocks.{clock_text};
ghost use Rattle.line_out.specs.Parts.{part_word};
ghost use Rattle.round_changes.specs.Changes.{change_between as between, is_gone as gone};
ghost use Rattle.plan_changes.specs.Changes.{change_text, changes_text, counts_words, gone_text_at, gone_words, job_text, job_text_at, minute_text, moved_words, new_words, others_words};

use arrayvec::ArrayVec;
use crew_io::sink::{Sink, WriteFault};
use crew_terms::{LAST_MINUTE, MOST_TEAMS_PER_TASK, Name};
use each_out::{Writes, put_each, put_numbered};
use field_table::write_clock;
use line_out::{Part, put_line};
use round_changes::{
    Change, Counts, NamedJob, Round, change_between, count_changes, is_gone, is_task, job_named,
};

/// The most parts of a line: a task's name, three words, and the teams of two jobs.
const MOST_PARTS: usize = 4 + 2 * MOST_TEAMS_PER_TASK;

/// The parts of a line.
type Line<'a> = ArrayVec<Part<'a>, MOST_PARTS>;

/// A minute as a clock shows it.
fn clock(minute: u32) -> [u8; 5]
    requires { minute ≤ LAST_MINUTE }
    ensures { result ≡ clock_text minute }
{
    let mut text = [0u8; 5];
    write_clock(minute, &mut text);
    text
}

/// Adds these names to a line.
fn push_names<'a>(line: &mut Line<'a>, names: &'a [Name])
    requires room { array_vec_len line.old + length names.now ≤ MOST_PARTS }
    ensures words { map part_word line.new.items ≡ map part_word line.old.items ++ names.now }
    ensures len { array_vec_len line.new ≡ array_vec_len line.old + length names.now }
{
    for name in names {
        line.push(Part::Word(name.bytes()));
    }
}

/// The line of a job that begins at another minute.
fn put_moved<K: Sink>(out: &mut K, before: &NamedJob, now: &NamedJob) -> Result<(), WriteFault>
    ensures { Puts K.Sink (line_text (moved_words before.now now.now)) out.old out.new result }
{
    let from = clock(before.start());
    let to = clock(now.start());
    let task = Part::Word(now.task().bytes());
    put_line(
        out,
        &[task, Part::Word(&from), Part::Word(b"to"), Part::Word(&to)],
    )
}

/// The line of a job that other teams do.
fn put_others<K: Sink>(out: &mut K, before: &NamedJob, now: &NamedJob) -> Result<(), WriteFault>
    ensures { Puts K.Sink (line_text (others_words before.now now.now)) out.old out.new result }
{
    let mut line = Line::new();
    line.push(Part::Word(now.task().bytes()));
    push_names(&mut line, before.teams());
    line.push(Part::Word(b"to"));
    push_names(&mut line, now.teams());
    put_line(out, &line)
}

/// The line of a job that is new.
fn put_new<K: Sink>(out: &mut K, now: &NamedJob) -> Result<(), WriteFault>
    ensures { Puts K.Sink (line_text (new_words now.now)) out.old out.new result }
{
    let at = clock(now.start());
    let mut line = Line::new();
    line.push(Part::Word(now.task().bytes()));
    line.push(Part::Word(b"done"));
    line.push(Part::Word(b"now"));
    line.push(Part::Word(&at));
    push_names(&mut line, now.teams());
    put_line(out, &line)
}

/// The line of a job of the round before that is gone.
fn put_gone<K: Sink>(out: &mut K, now: &Round, before: &NamedJob) -> Result<(), WriteFault>
    ensures { Puts K.Sink (line_text (gone_words now.now.tasks before.now)) out.old out.new result }
{
    let task = Part::Word(before.task().bytes());
    if is_task(now, before.task()) {
        put_line(out, &[task, Part::Word(b"open"), Part::Word(b"now")])
    } else {
        put_line(out, &[task, Part::Word(b"cancelled")])
    }
}

/// The line of a task that has a job in both rounds, if they differ.
fn put_between<K: Sink>(out: &mut K, before: &NamedJob, now: &NamedJob) -> Result<(), WriteFault>
    ensures { Puts K.Sink (change_text (between before.now now.now) before.now now.now)
        out.old out.new result }
{
    match change_between(Some(before), now) {
        Change::Kept => Ok(()),
        Change::Moved => put_moved(out, before, now),
        Change::Others => put_others(out, before, now),
        Change::New => put_new(out, now),
    }
}

/// The line of a job now, if it isn't kept.
fn put_job<K: Sink>(
    out: &mut K,
    before: Option<&NamedJob>,
    now: &NamedJob,
) -> Result<(), WriteFault>
    ensures { Puts K.Sink (job_text (option_copied before.entry) now.now) out.old out.new result }
{
    match before {
        Some(before) => put_between(out, before, now),
        None => put_new(out, now),
    }
}

/// Whether a job begins at a minute.
fn begins_at(job: &NamedJob, minute: u32) -> bool
    ensures { result ≡ (job.now.start == minute) }
{
    job.start() == minute
}

/// Whether a job of the round before began at a minute and is gone.
fn is_gone_at(now: &Round, minute: u32, before: &NamedJob) -> bool
    ensures { result ≡ ((before.now.start == minute) && gone now.now.jobs before.now) }
{
    begins_at(before, minute) && is_gone(now.jobs(), before)
}

/// The jobs that begin at a minute, behind those of the round before.
#[derive(Drop)]
struct Begun<'a> {
    before: &'a [NamedJob],
    minute: u32,
}

impl Writes<NamedJob> for Begun<'_> {
    ghost text = { λ s job. job_text_at s.before.now s.minute job };

    ghost has_text = { λ s job. ⊤ };

    fn write<K: Sink>(&self, out: &mut K, item: &NamedJob) -> Result<(), WriteFault> {
        if begins_at(item, self.minute) {
            put_job(out, job_named(self.before, item.task()), item)
        } else {
            Ok(())
        }
    }
}

/// The jobs of the round before that began at a minute and are gone.
#[derive(Drop)]
struct Gone<'a> {
    now: &'a Round,
    minute: u32,
}

impl Writes<NamedJob> for Gone<'_> {
    ghost text = { λ s job. gone_text_at s.now.now s.minute job };

    ghost has_text = { λ s job. ⊤ };

    fn write<K: Sink>(&self, out: &mut K, item: &NamedJob) -> Result<(), WriteFault> {
        if is_gone_at(self.now, self.minute, item) {
            put_gone(out, self.now, item)
        } else {
            Ok(())
        }
    }
}

/// Two rounds, minute by minute.
#[derive(Drop)]
struct Minutes<'a> {
    before: &'a Round,
    now: &'a Round,
}

impl Writes<u32> for Minutes<'_> {
    ghost text = { λ s m. minute_text s.before.now s.now.now m };

    ghost has_text = { λ s m. ⊤ };

    fn write<K: Sink>(&self, out: &mut K, item: &u32) -> Result<(), WriteFault> {
        let minute = *item;
        let before = self.before.jobs();
        put_each(out, &Begun { before, minute }, self.now.jobs())?;
        let now = self.now;
        put_each(out, &Gone { now, minute }, before)
    }
}

fn put_counts<K: Sink>(out: &mut K, round: u64, counts: Counts) -> Result<(), WriteFault>
    ensures { Puts K.Sink (line_text (counts_words round counts)) out.old out.new result }
{
    put_line(
        out,
        &[
            Part::Word(b"round"),
            Part::Number(round),
            Part::Word(b"kept"),
            Part::Number(counts.kept as u64),
            Part::Word(b"moved"),
            Part::Number(counts.moved as u64),
            Part::Word(b"others"),
            Part::Number(counts.others as u64),
            Part::Word(b"new"),
            Part::Number(counts.new as u64),
            Part::Word(b"gone"),
            Part::Number(counts.gone as u64),
        ],
    )
}

/// Writes what changed in a round next to the round before, by names: how many jobs are as they were, begin at another
/// minute, are done by other teams, are new, and are gone; and a line for each job that is not as it was, in order of its new
/// or old start. It takes no memory. After a fault, a front of the text was written.
pub fn changes<K: Sink>(
    out: &mut K,
    round: u64,
    before: &Round,
    now: &Round,
) -> Result<(), WriteFault>
    ensures { Puts K.Sink (changes_text round before.now now.now) out.old out.new result }
{
    put_counts(out, round, count_changes(before, now))?;
    put_numbered(out, &Minutes { before, now }, LAST_MINUTE + 1)
}
