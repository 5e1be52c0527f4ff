// The text of a bundle, written.
ghost use Rattle.std.specs.Prelude.{⊤};
ghost use Rattle.crew_instance.specs.Draft.{rows_of};
ghost use Rattle.crew_io.specs.Puts.{Puts};
ghost use Rattle.bundle_join.specs.Texts.{text_with};

use crew_io::put::put_all;
use crew_io::sink::{Sink, WriteFault};
use each_out::{Writes, put_each};
use line_out::{Part, put_line};

/// Writes bytes as they are.
#[derive(Drop)]
struct AsTheyAre;

impl Writes<Vec<u8>> for AsTheyAre {
    ghost text = { λ s bytes. bytes.items };

    ghost has_text = { λ s bytes. ⊤ };

    fn write<K: Sink>(&self, out: &mut K, item: &Vec<u8>) -> Result<(), WriteFault> {
        put_all(out, item)
    }
}

/// Writes the text of a bundle whose dossiers have these texts. After a fault a front of it was written.
pub(crate) fn put_texts<K: Sink>(
    out: &mut K,
    first: &[u8],
    texts: &[Vec<u8>],
) -> Result<(), WriteFault>
    ensures { Puts K.Sink (text_with first.now (rows_of texts.now)) out.old out.new result }
{
    put_line(
        out,
        &[Part::Word(b"crew"), Part::Word(b"parts"), Part::Word(b"1")],
    )?;
    put_all(out, first)?;
    put_line(
        out,
        &[Part::Word(b"parts"), Part::Number(texts.len() as u64)],
    )?;
    put_each(out, &AsTheyAre, texts)
}
