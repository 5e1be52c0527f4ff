// The texts of items, one after another.
ghost use Rattle.std.specs.Prelude.{◌<◌, ℕ, List, length, All};
ghost use Rattle.std.specs.List.{flat_map, range_with_len};
ghost use Rattle.crew_io.specs.Puts.{Puts};

use crew_io::sink::{Sink, WriteFault};

/// What is written of each item of a kind.
pub trait Writes<T> {
    /// The text of an item.
    ghost text: { Self → T → List ℕ };

    /// The items that have one.
    ghost has_text: { Self → T → Type 0 };

    /// Writes the text of an item. After a fault, a front of it was written.
    fn write<K: Sink>(&self, out: &mut K, item: &T) -> Result<(), WriteFault>
        requires { has_text self.now item.now }
        ensures { Puts K.Sink (text self.now item.now) out.old out.new result };
}

/// Writes the text of each item, in order. After a fault, a front of it all was written.
pub fn put_each<T, K: Sink, W: Writes<T>>(
    out: &mut K,
    writer: &W,
    items: &[T],
) -> Result<(), WriteFault>
    requires { All (W.has_text writer.now) items.now }
    ensures { Puts K.Sink (flat_map (W.text writer.now) items.now) out.old out.new result }
{
    for item in items {
        writer.write(out, item)?;
    }
    Ok(())
}

/// Writes the text of each of the numbers below `n`, in order. After a fault, a front of it all was written.
pub fn put_numbered<K: Sink, W: Writes<u32>>(
    out: &mut K,
    writer: &W,
    n: u32,
) -> Result<(), WriteFault>
    requires { (k : ℕ) → k < n → W.has_text writer.now k }
    ensures { Puts K.Sink (flat_map (W.text writer.now) (range_with_len 0 n))
        out.old out.new result }
{
    for k in 0..n {
        writer.write(out, &k)?;
    }
    Ok(())
}
