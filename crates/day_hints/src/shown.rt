// Bytes and minutes as they are shown.
use crew_terms::Name;
use std::fmt::{self, Display, Formatter, Write};
use std::str;

/// So many bytes of a word are shown.
const SHOWN: usize = 60;

/// A word as it is shown: its front if it is long, with escapes where it is no text or has control characters.
#[derive(Clone, Copy)]
pub struct Shown<'a>(pub &'a [u8]);

impl Display for Shown<'_> {
    fn fmt<W: Write>(&self, f: &mut Formatter<W>) -> fmt::Result {
        let bytes = self.0;
        let front = match bytes.get(..SHOWN) {
            Some(front) => front,
            None => bytes,
        };
        let plain = !front.iter().any(|b| b.is_ascii_control());
        match str::from_utf8(front) {
            Ok(text) if plain => f.write_str(text)?,
            _ => write!(f, "{}", front.escape_ascii())?,
        }
        if front.len() < bytes.len() {
            f.write_str("..")?;
        }
        Ok(())
    }
}

/// A minute as a clock shows it.
#[derive(Clone, Copy)]
pub struct Clock(pub u32);

impl Display for Clock {
    fn fmt<W: Write>(&self, f: &mut Formatter<W>) -> fmt::Result {
        let hours = self.0 / 60;
        let minutes = self.0 % 60;
        write!(f, "{hours:02}:{minutes:02}")
    }
}

/// The word with `_` in place of each byte that no name has.
#[derive(Clone, Copy)]
pub struct AsName<'a>(pub &'a [u8]);

impl Display for AsName<'_> {
    fn fmt<W: Write>(&self, f: &mut Formatter<W>) -> fmt::Result {
        for b in self.0.trim_ascii() {
            let kept = Name::read(&[*b]).is_some();
            f.write_char(if kept { *b as char } else { '_' })?;
        }
        Ok(())
    }
}

/// The numbers of a word with a space between neighbours.
#[derive(Clone, Copy)]
pub struct AsSkills<'a>(pub &'a [u8]);

impl Display for AsSkills<'_> {
    fn fmt<W: Write>(&self, f: &mut Formatter<W>) -> fmt::Result {
        let mut behind = false;
        for number in self.0.split(|b| !b.is_ascii_digit()) {
            if !number.is_empty() {
                if behind {
                    f.write_str(" ")?;
                }
                write!(f, "{}", Shown(number))?;
                behind = true;
            }
        }
        Ok(())
    }
}
