// Why the nodes of a tree were split, and the lines that say so.
ghost use Rattle.std.specs.Prelude.{◌≡◌, length, map, unsigned_abs};
ghost use Rattle.std.specs.Fmt.{decimal};
ghost use Rattle.std.specs.List.{flat_map};
ghost use Rattle.crew_terms.specs.Words.{line_text};
ghost use Rattle.crew_io.specs.Puts.{Puts};
ghost use Rattle.dossier_terms.specs.Causes.{Loose, Shares};
ghost use Rattle.dossier_terms.specs.Lines.{cause_lines, loose_line, op_word, overflow_line, share_line, spare_line, spent_line};
ghost use Rattle.line_out.specs.Parts.{next_word};
ghost use Rattle.cert_write.specs.Causes.{cause_of, part_of};

use crew_io::put::put_all;
use crew_io::sink::{Sink, WriteFault};
use crew_num::{Op, Overflow};
use dossier_out::number;
use frac_master::Share;
use itoa::Buffer;
use line_out::{Part, put_line, put_next};

/// Why a node was split, as it is written behind the split; `now` is how many tasks the plan left unassigned then.
#[derive(Clone, Copy, Debug)]
pub enum Cause<'a> {
    /// No cause is shown.
    None,
    /// Shares of columns that leave hardly more than `now` less one tasks unassigned: the share of each of these columns, and
    /// of each task what is left unassigned, all in parts of which `den` make one whole. None of the numbers is negative.
    Loose {
        now: u32,
        den: i128,
        shares: &'a [Share],
        left_open: &'a [i128],
    },
    /// An operation of the master's run left the range of 128 bits.
    Overflow {
        now: u32,
        fault: Overflow,
    },
    /// The master's run had made as many pivots as it may.
    Spent {
        now: u32,
    },
}

/// The first line of a loose cause.
fn put_first<K: Sink>(out: &mut K, now: u32, den: i128, shares: &[Share]) -> Result<(), WriteFault>
    ensures { Puts K.Sink (line_text (loose_line now (unsigned_abs den) (length shares.now)))
        out.old out.new result }
{
    let mut buffer = Buffer::new();
    let whole = buffer.format(den.unsigned_abs()).as_bytes();
    put_line(
        out,
        &[
            Part::Word(b"why"),
            Part::Word(b"loose"),
            Part::Number(now as u64),
            Part::Word(whole),
            Part::Number(shares.len() as u64),
        ],
    )
}

/// The line of a column's share.
fn put_share<K: Sink>(out: &mut K, share: Share) -> Result<(), WriteFault>
    ensures { Puts K.Sink (line_text (share_line (part_of share))) out.old out.new result }
{
    let mut buffer = Buffer::new();
    let parts = buffer.format(share.num.unsigned_abs()).as_bytes();
    put_line(
        out,
        &[
            Part::Word(b"share"),
            Part::Number(share.column as u64),
            Part::Word(parts),
        ],
    )
}

/// The lines of the columns' shares.
fn put_shares<K: Sink>(out: &mut K, shares: &[Share]) -> Result<(), WriteFault>
    ensures { Puts K.Sink (flat_map line_text (map share_line (map part_of shares.now))) out.old
        out.new result }
{
    for share in shares {
        put_share(out, *share)?;
    }
    Ok(())
}

/// The word of a number of parts, behind others of a line.
fn put_parts<K: Sink>(out: &mut K, parts: i128) -> Result<(), WriteFault>
    ensures { Puts K.Sink (next_word (decimal (unsigned_abs parts))) out.old out.new result }
{
    let mut buffer = Buffer::new();
    let word = buffer.format(parts.unsigned_abs()).as_bytes();
    put_next(out, &Part::Word(word))
}

/// The words of what is left unassigned of each task, behind others of a line.
fn put_open_parts<K: Sink>(out: &mut K, left_open: &[i128]) -> Result<(), WriteFault>
    ensures { Puts K.Sink (flat_map next_word (map decimal (map unsigned_abs left_open.now)))
        out.old out.new result }
{
    for parts in left_open {
        put_parts(out, *parts)?;
    }
    Ok(())
}

/// The line of what is left unassigned of each task.
fn put_spare<K: Sink>(out: &mut K, left_open: &[i128]) -> Result<(), WriteFault>
    ensures { Puts K.Sink (line_text (spare_line (map unsigned_abs left_open.now))) out.old
        out.new result }
{
    put_all(out, b"spare")?;
    put_open_parts(out, left_open)?;
    put_all(out, b"\n")
}

/// The lines of a loose cause.
fn put_loose<K: Sink>(
    out: &mut K,
    now: u32,
    den: i128,
    shares: &[Share],
    left_open: &[i128],
) -> Result<(), WriteFault>
    ensures { let s : Shares = record {
      whole = unsigned_abs den;
      parts = map part_of shares.now;
      spare = map unsigned_abs left_open.now;
    } in
        Puts K.Sink (flat_map line_text (cause_lines (Loose now s))) out.old out.new result }
{
    put_first(out, now, den, shares)?;
    put_shares(out, shares)?;
    put_spare(out, left_open)
}

/// The word of an operation.
fn op_bytes(op: Op) -> &'static [u8]
    ensures { result.now ≡ op_word op }
{
    match op {
        Op::Add => b"add".as_slice(),
        Op::Sub => b"sub".as_slice(),
        Op::Mul => b"mul".as_slice(),
    }
}

/// The line of an overflow.
fn put_overflow<K: Sink>(out: &mut K, now: u32, fault: Overflow) -> Result<(), WriteFault>
    ensures { Puts K.Sink (line_text (overflow_line now fault)) out.old out.new result }
{
    let mut first = Buffer::new();
    let mut second = Buffer::new();
    put_line(
        out,
        &[
            Part::Word(b"why"),
            Part::Word(b"overflow"),
            number(now),
            Part::Word(op_bytes(fault.op)),
            Part::Word(first.format(fault.a).as_bytes()),
            Part::Word(second.format(fault.b).as_bytes()),
        ],
    )
}

/// The line of spent pivots.
fn put_spent<K: Sink>(out: &mut K, now: u32) -> Result<(), WriteFault>
    ensures { Puts K.Sink (line_text (spent_line now)) out.old out.new result }
{
    put_line(
        out,
        &[Part::Word(b"why"), Part::Word(b"spent"), number(now)],
    )
}

/// The lines of a cause.
pub(crate) fn put_cause<K: Sink>(out: &mut K, cause: &Cause<'_>) -> Result<(), WriteFault>
    ensures { Puts K.Sink (flat_map line_text (cause_lines (cause_of cause.now))) out.old
        out.new result }
{
    match cause {
        Cause::None => put_line(out, &[Part::Word(b"why"), Part::Word(b"none")]),
        Cause::Loose {
            now,
            den,
            shares,
            left_open,
        } => put_loose(out, *now, *den, shares, left_open),
        Cause::Overflow { now, fault } => put_overflow(out, *now, *fault),
        Cause::Spent { now } => put_spent(out, *now),
    }
}
