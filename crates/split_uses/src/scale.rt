// How much spans make of a whole.
ghost use Rattle.std.specs.Prelude.{◌<◌};

use crate::spans::Span;

// Wholes have about so many bits once they are scaled.
const BITS: u32 = 20;

/// A whole, on the scale of shares, values and gains.
pub(crate) const ONE: i128 = 1 << 20;

/// What becomes of parts on the scale on which a whole is `ONE`.
#[derive(Clone, Copy)]
pub(crate) struct Scale {
    whole: i128,
    shift: u32,
    ghost few: { shift < 128 },
}

impl Scale {
    /// The scale for so many parts of a whole.
    pub(crate) fn of(whole: i128) -> Scale {
        let shift = if whole > 0 {
            whole.ilog2().saturating_sub(BITS).min(127)
        } else {
            0
        };
        Scale {
            whole: (whole >> shift).max(1),
            shift,
        }
    }

    /// What the span makes of a whole.
    pub(crate) fn part(&self, span: &Span) -> i128 {
        times(span.one.num >> self.shift, ONE, self.whole)
    }

    /// What the spans make of a whole together.
    pub(crate) fn sum(&self, spans: &[Span]) -> i128 {
        let mut sum = 0i128;
        for span in spans {
            sum = sum.saturating_add(self.part(span));
        }
        sum
    }
}

/// The product of the first two, over the third, which is taken as 1 at least.
pub(crate) fn times(one: i128, other: i128, by: i128) -> i128 {
    one.saturating_mul(other) / by.max(1)
}
