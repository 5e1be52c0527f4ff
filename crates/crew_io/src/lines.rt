// The lines of a source.
ghost use Rattle.std.specs.Prelude.{◌≡◌, ◌≤◌, ◌<◌, ◌+◌, ◌-◌, ◌↔◌, ◌≢◌, ⊤, [], Option, Some, None, Ok, length, slice_range, IfOk, OnOk, OnErr, IsOk, IsErr, IsSome, IsTrue};
ghost use Rattle.std.specs.Borrow.{sem, follows_so};
ghost use mathlib.Core.Option.{none};
ghost use Rattle.crew_io.specs.contracts.lines.LineReader.{the_row};
ghost use Rattle.crew_io.specs.Got.{GotNext};
ghost use Rattle.crew_io.specs.Draws.{TellsReads};
ghost use Rattle.crew_io.specs.Io.{MOST, Rose, HasEnded};
ghost use Rattle.crew_io.specs.Lines.{fresh_reader, allowance, rest_of, with_left, took_line, IsLineLength, Advances, Steps};

use crate::source::{Failed, Source};
use crew_terms::LONGEST_LINE;
use memchr::memchr;
use std::alloc::{AllocError, Global};
use std::marker::Model;

/// How many bytes are held at most: two of the longest lines, so that what is held is seldom moved.
const ROOM: usize = 2 * LONGEST_LINE;

/// What a reader answers. After any answer but `Line` it gives that answer again.
#[derive(Clone, Copy, Debug, PartialEq, Eq)]
pub enum Progress {
    /// A line was read, with its LF.
    Line,
    /// More than `LONGEST_LINE` bytes come without an LF.
    TooLong,
    /// More bytes come than the reader may hand out.
    TooMuch,
    /// The source has ended, after this many bytes without an LF.
    End { partial: usize },
    /// A read has failed.
    ReadFault,
}

/// What a reader answers, with the line that it lends, without its LF.
#[derive(Drop)]
pub enum Got<'a> {
    /// A line was read, with its LF.
    Line(&'a [u8]),
    /// More than `LONGEST_LINE` bytes come without an LF.
    TooLong,
    /// More bytes come than the reader may hand out.
    TooMuch,
    /// The source has ended, after this many bytes without an LF.
    End { partial: usize },
    /// A read has failed.
    ReadFault,
}

/// Reads the lines of a source, in memory that is taken at the start, and hands out at most a
/// number of bytes.
#[derive(Drop)]
pub struct LineReader {
    buf: Vec<u8>,
    line_from: usize,
    line_to: usize,
    at: usize,
    searched: usize,
    end: usize,
    limit: u64,
    handed: u64,
    stopped: Option<Progress>,
}

impl Model for LineReader {
    ghost use Rattle.crew_io.specs.Lines.{Reader};

    ghost Value = { Reader };

    ghost use Rattle.crew_io.specs.KeptReader.{reader_of, IsReader};

    ghost view = { reader_of };

    ghost invariant = { IsReader };
}

/// How many bytes stand before the first LF, or all of them.
fn first_feed(bytes: &[u8]) -> usize
    ensures { IsLineLength bytes.now result }
{
    memchr(b'\n', bytes).unwrap_or(bytes.len())
}

/// Moves what is held to the front of the room.
fn move_to_front(room: &mut [u8], at: usize, end: usize)
    requires order { at ≤ end }
    requires within { end ≤ length room.old }
    ensures { slice_range room.new 0 (end - at) ≡ slice_range room.old at end }
{
    if at > 0 {
        room.copy_within(at..end, 0);
    }
}

/// Reads on behind what is held.
pub(crate) fn read_on<S: Source>(
    src: &mut S,
    room: &mut [u8],
    at: usize,
    end: usize,
) -> Result<usize, Failed>
    requires held { at ≤ end }
    requires within { end < length room.old }
    ensures fits { IfOk result (λ n. end + n ≤ length room.old) }
    ensures rest { IfOk result
        (λ n. with_left (slice_range room.new at (end + n)) (S.left src.new)
        ≡ with_left (slice_range room.old at end) (S.left src.old)) }
    ensures same { slice_range room.new at end ≡ slice_range room.old at end }
    ensures nothing { OnErr result (S.left src.new ≡ S.left src.old) }
    ensures end { result ≡ Ok 0 → HasEnded (S.left src.old) }
    ensures later { S.faults src.old ≤ S.faults src.new }
    ensures cause { IsErr result → Rose (S.faults src.old) (S.faults src.new) }
    ensures uncounted { OnOk result (S.faults src.new ≡ S.faults src.old) }
    ensures steady { S.steady src.old → IsOk result × S.steady src.new }
{
    src.read(&mut room[end..])
}

/// Moves what is held to the front of the room, and reads on behind it.
fn refill<S: Source>(src: &mut S, room: &mut [u8], at: usize, end: usize) -> Result<usize, Failed>
    requires order { at ≤ end }
    requires within { end ≤ length room.old }
    requires spare { end - at < length room.old }
    ensures fits { IfOk result (λ n. end - at + n ≤ length room.old) }
    ensures rest { IfOk result
        (λ n. with_left (slice_range room.new 0 (end - at + n)) (S.left src.new)
        ≡ with_left (slice_range room.old at end) (S.left src.old)) }
    ensures same { slice_range room.new 0 (end - at) ≡ slice_range room.old at end }
    ensures nothing { OnErr result (S.left src.new ≡ S.left src.old) }
    ensures end { result ≡ Ok 0 → HasEnded (S.left src.old) }
    ensures later { S.faults src.old ≤ S.faults src.new }
    ensures cause { IsErr result → Rose (S.faults src.old) (S.faults src.new) }
    ensures uncounted { OnOk result (S.faults src.new ≡ S.faults src.old) }
    ensures steady { S.steady src.old → IsOk result × S.steady src.new }
{
    move_to_front(room, at, end);
    read_on(src, room, 0, end - at)
}

/// Whether more bytes come without an LF than the longest line has, and more may be handed out.
fn is_too_long(allowed: u64, front: usize) -> bool
    ensures { IsTrue result ↔ ((LONGEST_LINE < allowed) × (LONGEST_LINE < front)) }
{
    allowed > LONGEST_LINE as u64 && front > LONGEST_LINE
}

/// Whether more bytes come than may be handed out, with no line among them.
fn is_too_much(allowed: u64, front: usize, held: usize) -> bool
    ensures { IsTrue result ↔ ((allowed ≤ LONGEST_LINE) × (allowed ≤ front) × (allowed < held)) }
{
    allowed <= LONGEST_LINE as u64 && allowed <= front as u64 && allowed < held as u64
}

impl LineReader {
    /// A reader that hands out at most `limit` bytes, lines with their LFs. It takes all memory that
    /// the reader needs.
    pub fn open(alloc: Global, limit: u64) -> Result<LineReader, AllocError>
        ensures { IfOk result (λ r. r ≡ fresh_reader limit) }
    {
        Ok(LineReader {
            buf: vec![in alloc; 0u8; ROOM]?,
            line_from: 0,
            line_to: 0,
            at: 0,
            searched: 0,
            end: 0,
            limit,
            handed: 0,
            stopped: None,
        })
    }

    /// The line that was read last, without its LF. It is empty where the reader has stopped.
    pub fn line(&self) -> &[u8]
        ensures { result.now ≡ self.now.line }
    {
        &self.buf[self.line_from..self.line_to]
    }

    /// How many bytes the reader may still hand out.
    fn allowance(&self) -> u64
        ensures value { result ≡ allowance self.now }
        ensures within { self.now.handed ≤ self.now.limit }
        ensures most { self.now.limit ≤ MOST }
    {
        self.limit - self.handed
    }

    fn held(&self) -> usize
        ensures { result ≡ length self.now.held }
    {
        self.end - self.at
    }

    /// How many bytes of what is held stand before its first LF, or all of them.
    fn search(&mut self) -> usize
        ensures same { self.new ≡ self.old }
        ensures front { IsLineLength self.old.held result }
    {
        self.searched += first_feed(&self.buf[self.searched..self.end]);
        self.searched - self.at
    }

    /// Takes a line of so many bytes, and its LF.
    fn take_line(&mut self, front: usize)
        requires ended { front < length self.old.held }
        requires fits { front < allowance self.old }
        ensures { self.new ≡ took_line self.old front }
    {
        self.line_from = self.at;
        self.line_to = self.at + front;
        self.at += front + 1;
        self.searched = self.at;
        self.handed += front as u64 + 1;
    }

    /// Moves what is held to the front of the room, and reads on.
    fn fill<S: Source>(&mut self, src: &mut S) -> Result<usize, Failed>
        requires { length self.old.held < ROOM }
        ensures rest { rest_of self.new (S.left src.new) ≡ rest_of self.old (S.left src.old) }
        ensures same { self.new ≡ record self.old { held = self.new.held; line = [] } }
        ensures count { IfOk result (λ n. length self.new.held ≡ length self.old.held + n) }
        ensures nothing { OnErr result (self.new.held ≡ self.old.held) }
        ensures end { result ≡ Ok 0 → HasEnded (S.left src.old) × (self.new.held ≡ self.old.held) }
        ensures later { S.faults src.old ≤ S.faults src.new }
        ensures cause { IsErr result → Rose (S.faults src.old) (S.faults src.new) }
        ensures uncounted { OnOk result (S.faults src.new ≡ S.faults src.old) }
        ensures steady { S.steady src.old → IsOk result × S.steady src.new }
    {
        let read = refill(src, &mut self.buf, self.at, self.end);
        self.line_from = 0;
        self.line_to = 0;
        self.searched -= self.at;
        self.end -= self.at;
        self.at = 0;
        let n = read?;
        self.end += n;
        Ok(n)
    }

    /// Stops the reader with this answer.
    fn stop(&mut self, answer: Progress) -> Progress
        ensures value { result ≡ answer }
        ensures stopped { self.new ≡ record self.old { line = []; stopped = Some answer } }
    {
        self.line_from = 0;
        self.line_to = 0;
        self.stopped = Some(answer);
        answer
    }

    /// Reads the next line, where the reader has not stopped.
    fn read_line<S: Source>(&mut self, src: &mut S) -> Progress
        requires { self.old.stopped ≡ None }
        ensures advances { Advances self.old (S.left src.old) result self.new (S.left src.new) }
        ensures tells { TellsReads S.Source src.old src.new (result ≡ Progress.ReadFault) }
    {
        let allowed = self.allowance();
        loop {
            let front = self.search();
            let held = self.held();
            if is_too_long(allowed, front) {
                return self.stop(Progress::TooLong);
            }
            if is_too_much(allowed, front, held) {
                return self.stop(Progress::TooMuch);
            }
            if front < held {
                self.take_line(front);
                return Progress::Line;
            }
            match self.fill(src) {
                Ok(0) => return self.stop(Progress::End { partial: held }),
                Ok(_) => {}
                Err(Failed) => return self.stop(Progress::ReadFault),
            }
        }
    }

    /// Reads the next line, which `line` gives then. After any answer but `Line`, later calls look at
    /// no source and give that answer again.
    pub fn advance<S: Source>(&mut self, src: &mut S) -> Progress
        ensures steps { Steps self.old (S.left src.old) result self.new (S.left src.new) }
        ensures tells { self.old.stopped ≡ None →
            TellsReads S.Source src.old src.new (result ≡ Progress.ReadFault) }
        ensures again { IsSome self.old.stopped → src.new ≡ src.old }
    {
        match self.stopped {
            Some(answer) => answer,
            None => self.read_line(src),
        }
    }

    /// Reads the next line, and lends it. After any answer but `Line`, later calls look at no source
    /// and give that answer again.
    pub fn next<S: Source>(&mut self, src: &mut S) -> Got<'_>
        ensures* after { sem 𝓛 (follows_so the_row the_row self.entry.ghost_name none (λ _ _. ⊤)
            (λ new. GotNext self.old (S.left src.old) result new (S.left src.new))) }
        ensures tells { self.old.stopped ≡ None →
            TellsReads S.Source src.old src.new (result ≡ Got.ReadFault) }
        ensures again { IsSome self.old.stopped → src.new ≡ src.old }
    {
        match self.advance(src) {
            Progress::Line => Got::Line(self.line()),
            Progress::TooLong => Got::TooLong,
            Progress::TooMuch => Got::TooMuch,
            Progress::End { partial } => Got::End { partial },
            Progress::ReadFault => Got::ReadFault,
        }
    }
}
