// Bytes as text.
use std::fmt;
use std::fmt::{Debug, Formatter, Write};

/// Bytes that are shown as text.
#[derive(Clone, Copy)]
pub struct Shown<'a>(pub &'a [u8]);

impl Debug for Shown<'_> {
    fn fmt<W: Write>(&self, f: &mut Formatter<W>) -> fmt::Result {
        write!(f, "{}", self.0.escape_ascii())
    }
}
