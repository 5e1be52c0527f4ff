// Texts in pieces.
ghost use Rattle.std.specs.Prelude.{◌≡◌, ⊤, map};
ghost use Rattle.crew_io.specs.Puts.{Puts};
ghost use Rattle.each_out.specs.Pieces.{joined, piece_text};

use crate::items::{Writes, put_each};
use crew_io::put::put_all;
use crew_io::sink::{Sink, WriteFault};
use itoa::Buffer;

/// A piece of a text.
#[derive(Clone, Copy, Debug)]
pub enum Piece<'a> {
    /// These bytes.
    Text(&'a [u8]),
    /// The decimal of this number.
    Number(u64),
}

/// Writes a piece as it is.
#[derive(Drop)]
struct AsItIs;

impl<'a> Writes<Piece<'a>> for AsItIs {
    ghost text = { λ s piece. piece_text piece };

    ghost has_text = { λ s piece. ⊤ };

    fn write<K: Sink>(&self, out: &mut K, item: &Piece<'a>) -> Result<(), WriteFault> {
        match item {
            Piece::Text(bytes) => put_all(out, bytes),
            Piece::Number(n) => {
                let mut buffer = Buffer::new();
                put_all(out, buffer.format(*n).as_bytes())
            }
        }
    }
}

/// Writes these pieces, one after another. After a fault, a front of them was written.
pub fn put_pieces<K: Sink>(out: &mut K, pieces: &[Piece<'_>]) -> Result<(), WriteFault>
    ensures { Puts K.Sink (joined (map piece_text pieces.now)) out.old out.new result }
{
    put_each(out, &AsItIs, pieces)
}
