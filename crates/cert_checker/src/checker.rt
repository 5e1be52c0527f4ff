// The checker: what it has read, and what it says of one more line.
ghost use Rattle.std.specs.Prelude.{◌≡◌, ◌≢◌, ◌≤◌, ◌<◌, ◌+◌, ◌^◌, ◌↔◌, ℕ, Some, None, Ok, IfOk, OnOk, OnErr, IsErr, IsOk, IsTrue, IfSome, length};
ghost use Rattle.crew_terms.specs.Words.{IsLine, words_of};
ghost use Rattle.crew_terms.specs.declared.TheConstants.{LONGEST_INPUT};
ghost use Rattle.dossier_terms.specs.declared.Reason.{Reason};
ghost use Rattle.dossier_terms.specs.Causes.{column_of};
ghost use Rattle.dossier_terms.specs.Dossier.{Dossier};
ghost use Rattle.dossier_terms.specs.Reading.{Reading};
ghost use Rattle.cert_checker.specs.Checked.{IsDueAt, IsEnded, IsJudged, IsOpen, IsPastTree, IsReached, IsTrueYes, IsWholeAt, fresh_checker, opened_at, refused_at, stop_reason_of, verdict_of};
ghost use Rattle.cert_checker.specs.Due.{Awaits, IsEndOf, IsOfTree};
ghost use Rattle.cert_checker.specs.Kept.{IsKeptFrom, kept_state};
ghost use Rattle.cert_checker.specs.Said.{IsSaidAt};

use crate::due::{Due, EndedDossier, Step};
use crate::judge::judge;
use crate::laws::{one_answer, reached_goes_on, whole_is_true};
use crate::rooms::TreeRoom;
use crew_instance::{Instance, Plan, TurnRoom, unassigned};
use crew_terms::Visit;
use dossier_terms::Reason;
use field_table::Cuts;
use head_check::HeadDue;
use line_in::Refusal;
use std::alloc::{AllocError, Global};
use std::marker::Model;
use std::mem;

/// What a whole dossier says: how many tasks its plan leaves unassigned, its bound, the numbers of splits, of closed
/// leaves and of other leaves in its tree, and of how many splits no cause is shown.
#[derive(Clone, Copy, Debug, PartialEq, Eq)]
pub struct Verdict {
    pub unassigned: u32,
    pub bound: u32,
    pub splits: u32,
    pub closed: u32,
    pub left_open: u32,
    pub unshown: u32,
}

/// What the checker says of a line.
#[derive(Clone, Copy, Debug, PartialEq, Eq)]
pub enum Said {
    /// It breaks no rule, and one more line is due.
    More,
    /// It ends a good dossier, which says this.
    Whole(Verdict),
    /// The line of this number, from 1, breaks a rule, or does not come whole.
    No { line: u64, reason: Reason },
}

/// Why no line comes any more.
#[derive(Clone, Copy, Debug, PartialEq, Eq)]
pub enum Stop {
    /// The input has ended, after this many bytes without an LF.
    End { partial: usize },
    /// The next line is longer than the 131,072 bytes that a line may have.
    TooLong,
    /// The input is longer than the 2^62 bytes that it may have.
    TooMuch,
}

// Where the checker stands.
#[derive(Drop)]
enum State {
    // A line of a dossier is due.
    Due(Due),
    // A dossier is whole: the first line of the next one is due, or the end of the input.
    Whole(EndedDossier),
    Refused { line: u64, reason: Reason },
    Spent,
}

/// Reads dossiers, one line after another.
#[derive(Drop)]
pub struct Checker {
    alloc: Global,
    cuts: Cuts,
    lines: u64,
    state: State,
    // The room of the last dossier's tree.
    room: Option<TreeRoom>,
    // The room in which the jobs of each plan are looked through.
    turns: Box<TurnRoom>,
}

impl Model for Checker {
    ghost use Rattle.cert_checker.specs.Checked.{Checked};

    ghost Value = { Checked };

    ghost use Rattle.cert_checker.specs.Kept.{checked, IsKept};

    ghost view = { checked };

    ghost invariant = { IsKept };
}

/// What a whole dossier says.
fn whole_verdict(ended: &EndedDossier) -> Verdict
    ensures { (d : Dossier) → IsEndOf ended.now d → result ≡ verdict_of d }
{
    let tree = &*ended.tree;
    let draft = &*tree.draft;
    Verdict {
        unassigned: unassigned(&draft.plan),
        bound: draft.bound,
        splits: ended.counts.splits,
        closed: ended.counts.closed,
        left_open: ended.counts.left_open,
        unshown: tree.unshown,
    }
}

/// Puts the next state in the place that one was taken out of, where nothing is left to be let go.
#[inline(always)]
fn put_back(state: &mut State, next: State)
    requires taken { state.old ≡ State.Spent }
    ensures { state.new ≡ next }
{
    mem::forget(mem::replace(state, next));
}

/// Keeps what a step at the line of this number leads to.
#[inline(always)]
fn settle(state: &mut State, step: Result<Step, Reason>, line: u64)
    requires taken { state.old ≡ State.Spent }
    ensures kept { state.new ≡ kept_state line step }
{
    let next = match step {
        Ok(Step::More(due)) => State::Due(due),
        Ok(Step::Whole(ended)) => State::Whole(ended),
        Err(reason) => State::Refused { line, reason },
    };
    put_back(state, next);
}

/// The reason that tells why no line comes.
fn stop_reason(why: Stop) -> Reason
    ensures { result ≡ stop_reason_of why }
{
    match why {
        Stop::End { .. } => Reason::End,
        Stop::TooLong => Reason::TooLong,
        Stop::TooMuch => Reason::TooMuch,
    }
}

impl Checker {
    /// A checker that has read nothing yet.
    pub fn open(alloc: Global) -> Result<Checker, AllocError>
        ensures { IfOk result (λ c. c ≡ fresh_checker) }
    {
        Checker::open_at(alloc, 0)
    }

    /// A checker that has read nothing yet, where so many lines come before the first line of a dossier. They count as
    /// lines that are judged.
    pub fn open_at(alloc: Global, lines: u64) -> Result<Checker, AllocError>
        requires { lines ≤ LONGEST_INPUT }
        ensures { IfOk result (λ c. c ≡ opened_at lines) }
    {
        let cuts = Cuts::new(alloc)?;
        let turns = Box::new(alloc, TurnRoom::new())?;
        Ok(Checker {
            alloc,
            cuts,
            lines,
            state: State::Due(Due::Head(HeadDue::Form)),
            room: None,
            turns,
        })
    }

    /// How many lines are judged so far; those after a line that is refused are not.
    pub fn lines(&self) -> u64
        ensures count { result ≡ self.now.lines }
        ensures few { result ≤ LONGEST_INPUT }
    {
        self.lines
    }

    /// Judges the line that is due, which was taken out of the state.
    #[inline(always)]
    fn judge_line(&mut self, due: Due, line: &[u8]) -> Result<(), AllocError>
        requires taken { self.old.at ≡ State.Spent }
        requires kept { IsKeptFrom due }
        requires plain { IsLine line.now }
        requires few { self.old.lines < LONGEST_INPUT }
        ensures judged { (reading : Reading) → IsReached reading → Awaits due reading → OnOk result
            ((said : Said) → IsSaidAt self.new.at said
            → IsJudged self.old.lines reading (words_of line.now) said self.new) }
        ensures room { IsOfTree due → IsOk result }
        ensures memory { OnErr result (self.new ≡ record self.old { at = State.Spent }) }
        ensures kept { OnOk result (self.new.at ≢ State.Spent) }
    {
        one_answer();
        reached_goes_on();
        whole_is_true();
        let words = self.cuts.split(line);
        let turns = &mut *self.turns;
        let step = match judge(self.alloc, &mut self.room, turns, due, words) {
            Ok(step) => Ok(step),
            Err(Refusal::No(reason)) => Err(reason),
            Err(Refusal::OutOfMemory) => return Err(AllocError),
        };
        self.lines += 1;
        settle(&mut self.state, step, self.lines);
        Ok(())
    }

    /// Judges one more line, as `line` does, which tells what is said of it.
    // One call for all that judges a line, which is inlined into it once, and gives nothing over memory.
    #[inline(never)]
    fn advance(&mut self, line: &[u8]) -> Result<(), AllocError>
        requires plain { IsLine line.now }
        requires few { self.old.lines < LONGEST_INPUT }
        ensures judged { (due : Reading) → IsReached due → IsDueAt self.old.at due → OnOk result
            ((said : Said) → IsSaidAt self.new.at said
            → IsJudged self.old.lines due (words_of line.now) said self.new) }
        ensures room { (due : Reading) → IsPastTree due → IsDueAt self.old.at due → IsOk result }
        ensures refused { (number : ℕ) (reason : Reason) →
            self.old.at ≡ State.Refused number reason → IsOk result × (self.new ≡ self.old) }
        ensures spent { self.old.at ≡ State.Spent → IsErr result }
        ensures memory { OnErr result (self.new ≡ record self.old { at = State.Spent }) }
        ensures kept { OnOk result (self.new.at ≢ State.Spent) }
    {
        let due = match mem::replace(&mut self.state, State::Spent) {
            State::Due(due) => due,
            State::Whole(ended) => {
                self.room = Some(TreeRoom::of(ended));
                Due::Head(HeadDue::Form)
            }
            State::Refused { line, reason } => {
                put_back(&mut self.state, State::Refused { line, reason });
                return Ok(());
            }
            State::Spent => return Err(AllocError),
        };
        self.judge_line(due, line)
    }

    /// What is said of the line that was judged last.
    #[inline(always)]
    fn said(&self) -> Said
        requires { self.now.at ≢ State.Spent }
        ensures { IsSaidAt self.now.at result }
    {
        match &self.state {
            State::Due(_) => Said::More,
            State::Whole(ended) => Said::Whole(whole_verdict(ended)),
            State::Refused { line, reason } => Said::No {
                line: *line,
                reason: *reason,
            },
            State::Spent => unreachable!(),
        }
    }

    /// Judges one more line, without its LF. After a line that is refused every later call gives that answer again,
    /// and after want of memory every later call does that. Behind the line `tree` of a dossier memory is not wanting to
    /// its end.
    // Inlined where lines are read, so that what is said of a line is not laid out in memory to be looked at.
    #[inline(always)]
    pub fn line(&mut self, line: &[u8]) -> Result<Said, AllocError>
        requires plain { IsLine line.now }
        requires few { self.old.lines < LONGEST_INPUT }

        // The line that was due is judged by the table of lines.
        ensures judged { (due : Reading) → IsReached due → IsDueAt self.old.at due →
            IfOk result (λ said. IsJudged self.old.lines due (words_of line.now) said self.new) }

        // All memory that the lines of a tree want is taken at the line `tree`.
        ensures room { (due : Reading) → IsPastTree due → IsDueAt self.old.at due → IsOk result }

        ensures refused { (number : ℕ) (reason : Reason) →
            self.old.at ≡ State.Refused number reason →
            (result ≡ Ok (Said.No number reason)) × (self.new ≡ self.old) }
        ensures spent { self.old.at ≡ State.Spent → IsErr result }
        ensures memory { OnErr result (self.new ≡ record self.old { at = State.Spent }) }
    {
        self.advance(line)?;
        Ok(self.said())
    }

    /// Whether a dossier is whole, and no line was read after it.
    pub fn is_between(&self) -> bool
        ensures ended { IsTrue result ↔ IsEnded self.now.at }
        // The dossier that is whole is then what it says.
        ensures true_yes { IsTrue result → (d : Dossier) × IsWholeAt self.now.at d × IsTrueYes d }
    {
        matches!(self.state, State::Whole(_))
    }

    /// Is told that no line comes any more. None exactly where the input has ended behind a whole dossier; else the
    /// line that is due is refused.
    pub fn stopped(&mut self, why: Stop) -> Option<Said>
        requires { IsOpen self.old.at }
        ensures over { (result ≡ None) ↔ (IsEnded self.old.at × (why ≡ Stop.End 0)) }
        ensures same { result ≡ None → self.new ≡ self.old }
        ensures refused { IfSome result
            (λ said. (said ≡ Said.No (self.old.lines + 1) (stop_reason_of why))
            × (self.new ≡ refused_at self.old (stop_reason_of why))) }
    {
        if why == (Stop::End { partial: 0 }) && self.is_between() {
            return None;
        }
        let line = self.lines + 1;
        let reason = stop_reason(why);
        self.state = State::Refused { line, reason };
        Some(Said::No { line, reason })
    }

    /// The instance of the dossier that is whole.
    pub fn instance(&self) -> &Instance
        requires { IsEnded self.now.at }
        ensures { (d : Dossier) → IsWholeAt self.now.at d → result.now ≡ d.instance }
    {
        match &self.state {
            State::Whole(ended) => &ended.tree.draft.base.instance,
            _ => unreachable!(),
        }
    }

    /// The plan of the dossier that is whole.
    pub fn plan(&self) -> &Plan
        requires { IsEnded self.now.at }
        ensures plan { (d : Dossier) → IsWholeAt self.now.at d → result.now ≡ d.plan }
    {
        match &self.state {
            State::Whole(ended) => &ended.tree.draft.plan,
            _ => unreachable!(),
        }
    }

    /// The node budget of the dossier that is whole.
    pub fn nodes(&self) -> u32
        requires { IsEnded self.now.at }
        ensures { (d : Dossier) → IsWholeAt self.now.at d → result ≡ d.budget }
    {
        match &self.state {
            State::Whole(ended) => ended.tree.draft.base.nodes,
            _ => unreachable!(),
        }
    }

    /// How many routes in its pool come from the round before. They are its first ones.
    pub fn kept(&self) -> usize
        requires { IsEnded self.now.at }
        ensures { (d : Dossier) → IsWholeAt self.now.at d → result ≡ d.kept }
    {
        match &self.state {
            State::Whole(ended) => ended.tree.draft.kept as usize,
            _ => unreachable!(),
        }
    }

    /// How many routes its pool has.
    pub fn pool_len(&self) -> usize
        requires { IsEnded self.now.at }
        ensures { (d : Dossier) → IsWholeAt self.now.at d → result ≡ length d.pool }
    {
        match &self.state {
            State::Whole(ended) => ended.tree.draft.pool.len(),
            _ => unreachable!(),
        }
    }

    /// The route at the place `c` of its pool, from 0: its team and its visits.
    pub fn route(&self, c: usize) -> (u32, &[Visit])
        requires ended { IsEnded self.now.at }
        requires below { (d : Dossier) → IsWholeAt self.now.at d → c < length d.pool }
        ensures { (d : Dossier) → IsWholeAt self.now.at d
            → record { team = result.0; visits = result.1.now } ≡ column_of d.pool c }
    {
        match &self.state {
            State::Whole(ended) => {
                let route = ended.tree.draft.pool.route(c);
                (route.team(), route.visits())
            }
            _ => unreachable!(),
        }
    }
}
