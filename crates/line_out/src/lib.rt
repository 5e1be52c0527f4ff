// A line of words, written to a sink.
#![tactic(auto)]

ghost use Rattle.std.specs.Prelude.{◌≡◌, ◌≤◌, ◌+◌, ◌++◌, [], ◌∷◌, length, take, map, IfOk};
ghost use Rattle.std.specs.Fmt.{decimal};
ghost use Rattle.crew_io.specs.Puts.{Puts};
ghost use Rattle.crew_terms.specs.Words.{line_text};
ghost use Rattle.line_out.specs.Parts.{next_word, part_word};

use crew_io::put::put_all;
use crew_io::sink::{Sink, WriteFault};
use itoa::Buffer;

/// So many bytes a line may have that is gathered, with its LF, and put at once.
const SHORT: usize = 128;

/// Room for a line that is short enough to be put at once.
pub type LineRoom = [u8; SHORT];

/// A line is longer than its room.
#[derive(Clone, Copy)]
struct Longer;

/// A word of a line that is written.
#[derive(Clone, Copy, Debug)]
pub enum Part<'a> {
    /// The word is these bytes.
    Word(&'a [u8]),
    /// The word is the decimal of this number.
    Number(u64),
    /// The word is the decimal of this number, behind a minus where it is below 0.
    Signed(i64),
}

impl Default for Part<'_> {
    ghost use Rattle.std.specs.Prelude.{[]};

    ghost is_default = { λ part. part_word part ≡ [] };

    /// An empty word.
    fn default() -> Self {
        Part::Word(b"")
    }
}

/// New room for a line.
#[inline(always)]
pub fn line_room() -> LineRoom {
    [0u8; SHORT]
}

/// Adds the bytes to the line that stands in the room up to `at`, and gives where they end.
#[inline(always)]
pub fn add_bytes(room: &mut LineRoom, at: usize, bytes: &[u8]) -> usize
    requires { at + length bytes.now ≤ length room.old }
    ensures end { result ≡ at + length bytes.now }
    ensures added { take result room.new ≡ take at room.old ++ bytes.now }
{
    let end = at + bytes.len();
    room[at..end].copy_from_slice(bytes);
    end
}

/// Adds the decimal of a number that may have many digits.
#[inline(never)]
fn add_digits(room: &mut LineRoom, at: usize, number: u32) -> usize
    requires { at + 10 ≤ length room.old }
    ensures end { result ≤ at + 10 }
    ensures added { take result room.new ≡ take at room.old ++ decimal number }
{
    let mut buffer = Buffer::new();
    add_bytes(room, at, buffer.format(number).as_bytes())
}

/// Adds the decimal of a number, of ten digits at most.
// Most numbers that are written have one digit.
#[inline(always)]
fn add_number(room: &mut LineRoom, at: usize, number: u32) -> usize
    requires { at + 10 ≤ length room.old }
    ensures end { result ≤ at + 10 }
    ensures added { take result room.new ≡ take at room.old ++ decimal number }
{
    if number < 10 {
        return add_bytes(room, at, &[b'0' + number as u8]);
    }
    add_digits(room, at, number)
}

/// Adds two more words to the line that stands in the room up to `at` and has words already, a word and the decimal of a
/// number, of ten digits at most, and gives where they end.
#[inline(always)]
pub fn add_count(room: &mut LineRoom, at: usize, word: &[u8], number: u32) -> usize
    requires { at + length word.now + 12 ≤ length room.old }
    ensures end { result ≤ at + length word.now + 12 }
    ensures added { take result room.new
        ≡ take at room.old ++ next_word word.now ++ next_word (decimal number) }
{
    let at = add_bytes(room, at, b" ");
    let at = add_bytes(room, at, word);
    let at = add_bytes(room, at, b" ");
    add_number(room, at, number)
}

/// Adds the bytes, where they fit.
fn add(room: &mut LineRoom, at: usize, bytes: &[u8]) -> Result<usize, Longer>
    requires { at ≤ length room.old }
    ensures within { IfOk result (λ to. to ≤ length room.new) }
    ensures added { IfOk result (λ to. take to room.new ≡ take at room.old ++ bytes.now) }
{
    if bytes.len() > room.len() - at {
        return Err(Longer);
    }
    Ok(add_bytes(room, at, bytes))
}

/// Adds the word that a part is, where it fits.
#[inline(always)]
fn add_part(room: &mut LineRoom, at: usize, part: &Part<'_>) -> Result<usize, Longer>
    requires { at ≤ length room.old }
    ensures within { IfOk result (λ to. to ≤ length room.new) }
    ensures added { IfOk result (λ to. take to room.new ≡ take at room.old ++ part_word part.now) }
{
    match part {
        Part::Word(word) => add(room, at, word),
        Part::Number(n) if *n < 10 => add(room, at, &[b'0' + *n as u8]),
        Part::Number(n) => {
            let mut buffer = Buffer::new();
            add(room, at, buffer.format(*n).as_bytes())
        }
        Part::Signed(n) => {
            let mut buffer = Buffer::new();
            add(room, at, buffer.format(*n).as_bytes())
        }
    }
}

/// Writes the line of these parts with its LF into the room, where it fits, and tells where it ends.
fn gather(room: &mut LineRoom, parts: &[Part<'_>]) -> Result<usize, Longer>
    ensures within { IfOk result (λ to. to ≤ length room.new) }
    ensures line { IfOk result (λ to. take to room.new ≡ line_text (map part_word parts.now)) }
{
    let Some((first, others)) = parts.split_first() else {
        return add(room, 0, b"\n");
    };
    let mut at = add_part(room, 0, first)?;
    for part in others {
        at = add(room, at, b" ")?;
        at = add_part(room, at, part)?;
    }
    add(room, at, b"\n")
}

fn put_part<K: Sink>(out: &mut K, part: &Part<'_>) -> Result<(), WriteFault>
    ensures { Puts K.Sink (part_word part.now) out.old out.new result }
{
    match part {
        Part::Word(word) => put_all(out, word),
        Part::Number(n) => {
            let mut buffer = Buffer::new();
            put_all(out, buffer.format(*n).as_bytes())
        }
        Part::Signed(n) => {
            let mut buffer = Buffer::new();
            put_all(out, buffer.format(*n).as_bytes())
        }
    }
}

/// Writes a line of any length, a word at a time.
fn put_long<K: Sink>(out: &mut K, parts: &[Part<'_>]) -> Result<(), WriteFault>
    ensures { Puts K.Sink (line_text (map part_word parts.now)) out.old out.new result }
{
    let mut before = b"".as_slice();
    for part in parts {
        put_all(out, before)?;
        put_part(out, part)?;
        before = b" ".as_slice();
    }
    put_all(out, b"\n")
}

/// Writes a line of these parts with its LF; it takes no memory. After a fault, a front of the line was
/// written.
pub fn put_line<K: Sink>(out: &mut K, parts: &[Part<'_>]) -> Result<(), WriteFault>
    ensures { Puts K.Sink (line_text (map part_word parts.now)) out.old out.new result }
{
    let mut room = line_room();
    match gather(&mut room, parts) {
        Ok(len) => put_all(out, &room[..len]),
        Err(Longer) => put_long(out, parts),
    }
}

/// Writes one more word of a line, and the space before it: with a first word before it and an LF at its end, a line that
/// is too long to be held can be written word by word.
pub fn put_next<K: Sink>(out: &mut K, part: &Part<'_>) -> Result<(), WriteFault>
    ensures { Puts K.Sink (next_word (part_word part.now)) out.old out.new result }
{
    put_all(out, b" ")?;
    put_part(out, part)
}

/// Writes a line of a word, a number and one more word.
pub fn put_word<'a, K: Sink>(
    out: &mut K,
    first: &'a [u8],
    number: u64,
    word: &'a [u8],
) -> Result<(), WriteFault>
    ensures { Puts K.Sink (line_text (first.now ∷ decimal number ∷ word.now ∷ []))
        out.old out.new result }
{
    put_line(
        out,
        &[Part::Word(first), Part::Number(number), Part::Word(word)],
    )
}
