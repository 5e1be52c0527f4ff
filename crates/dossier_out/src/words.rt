// Words of lines, and lines whose words are many.
ghost use Rattle.std.specs.Prelude.{◌≡◌, ◌∷◌, map};
ghost use Rattle.std.specs.Fmt.{decimal};
ghost use Rattle.std.specs.List.{flat_map};
ghost use Rattle.crew_terms.specs.Words.{line_text};
ghost use Rattle.crew_io.specs.Puts.{Puts};
ghost use Rattle.line_out.specs.Parts.{next_word};

use crew_io::put::put_all;
use crew_io::sink::{Sink, WriteFault};
use line_out::{Part, put_next};

/// A number as a part of a line.
pub fn number(n: u32) -> Part<'static>
    ensures { result ≡ Part.Number n }
{
    Part::Number(n as u64)
}

/// The words of these numbers, behind others of a line.
fn put_numbers<K: Sink>(out: &mut K, numbers: &[u32]) -> Result<(), WriteFault>
    ensures { Puts K.Sink (flat_map next_word (map decimal numbers.now)) out.old out.new result }
{
    for n in numbers {
        put_next(out, &number(*n))?;
    }
    Ok(())
}

/// A line of a word, two numbers, and as many more as there are.
pub(crate) fn put_counts<K: Sink>(
    out: &mut K,
    word: &[u8],
    first: u32,
    second: u32,
    others: &[u32],
) -> Result<(), WriteFault>
    ensures { Puts K.Sink (line_text (word.now ∷ decimal first ∷ decimal second ∷ map decimal
        others.now))
        out.old out.new result }
{
    put_all(out, word)?;
    put_next(out, &number(first))?;
    put_next(out, &number(second))?;
    put_numbers(out, others)?;
    put_all(out, b"\n")
}
