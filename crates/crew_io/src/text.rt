// All the bytes of a source, up to a limit.
ghost use Rattle.std.specs.Prelude.{◌≡◌, ◌≢◌, ◌≤◌, ◌<◌, Ok, length, slice_range, vec_len, IfOk, OnOk, OnErr, IsOk, IsErr};
ghost use Rattle.crew_io.specs.Draws.{TellsReads};
ghost use Rattle.crew_io.specs.Lines.{with_left};
ghost use Rattle.crew_io.specs.Text.{HasAtMost, TookAtMost, ReadsText};

use crate::lines::read_on;
use crate::source::Source;
use std::alloc::{AllocError, Global};
use std::marker::Model;

/// The room, in bytes, with which reading begins; it doubles where it is full.
const FIRST: usize = 65_536;

/// Bytes that were read.
#[derive(Drop)]
pub struct Bytes {
    items: Vec<u8>,
}

impl Model for Bytes {
    ghost use Rattle.std.specs.Prelude.{List, ℕ};

    ghost Value = { List ℕ };

    ghost view = { λ b. b.items.items };
}

impl Bytes {
    /// These bytes; it takes no memory.
    pub fn new(items: Vec<u8>) -> Bytes
        ensures { result ≡ items.items }
    {
        Bytes { items }
    }

    /// The bytes, as a slice.
    pub fn as_slice(&self) -> &[u8]
        ensures { result.now ≡ self.now }
    {
        &self.items
    }
}

/// What reading a source to its end gives.
#[derive(Drop)]
pub enum Text {
    /// All the bytes that came.
    Whole(Bytes),
    /// More bytes come than are taken.
    TooLong,
    /// A read failed.
    ReadFault,
}

/// Room for at least one byte behind the first `len`, where `most` bytes aren't reached yet.
fn make_room(room: &mut Vec<u8>, len: usize, most: usize) -> Result<(), AllocError>
    requires more { len < most }
    requires held { len ≤ vec_len room.old }
    requires within { vec_len room.old ≤ most }
    ensures more { OnOk result (len < vec_len room.new) }
    ensures within { vec_len room.new ≤ most }
    ensures same { slice_range room.new.items 0 len ≡ slice_range room.old.items 0 len }
{
    if len < room.len() {
        return Ok(());
    }
    let more = room.len().max(FIRST).min(most - room.len());
    room.resize(room.len() + more, 0)
}

/// Whether a byte comes behind the most that a text may have.
fn read_end<S: Source>(src: &mut S, read: Vec<u8>) -> Text
    ensures reads { ReadsText (length read.items)
        (with_left read.items (S.left src.old)) result (S.left src.new) }
    ensures within { HasAtMost (length read.items) result }
    ensures tells { TellsReads S.Source src.old src.new (result ≡ Text.ReadFault) }
{
    let mut next = [0u8; 1];
    match src.read(&mut next) {
        Ok(0) => Text::Whole(Bytes::new(read)),
        Ok(_) => Text::TooLong,
        Err(_) => Text::ReadFault,
    }
}

/// Reads a source to its end: `Whole` with all bytes to come where they are at most `most`, `TooLong`
/// where more come, of which it takes one more than `most`. A read that fails ends it with `ReadFault`,
/// and it was counted. AllocError comes where memory is wanting; then too, what was read is lost.
pub fn read_text<S: Source>(alloc: Global, src: &mut S, most: usize) -> Result<Text, AllocError>
    ensures reads { IfOk result (λ text. ReadsText most (S.left src.old) text (S.left src.new)) }
    ensures within { IfOk result (HasAtMost most) }
    ensures err { OnErr result (TookAtMost most (S.left src.old) (S.left src.new)) }
    ensures tells { TellsReads S.Source src.old src.new (result ≡ Ok Text.ReadFault) }
{
    let mut room = Vec::new(alloc);
    let mut len = 0;
    while len < most {
        make_room(&mut room, len, most)?;
        let Ok(n) = read_on(src, &mut room, 0, len) else {
            return Ok(Text::ReadFault);
        };
        if n == 0 {
            room.truncate(len);
            return Ok(Text::Whole(Bytes::new(room)));
        }
        len += n;
    }
    Ok(read_end(src, room))
}
