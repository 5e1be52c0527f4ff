// Texts of lines.
use std::alloc::{AllocError, Global};

/// The text of these lines, each with its end.
pub fn text_of(alloc: Global, lines: &[&[u8]]) -> Result<Vec<u8>, AllocError> {
    let mut text = Vec::new(alloc);
    for line in lines {
        text.extend_from_slice(line)?;
        text.push(b'\n')?;
    }
    Ok(text)
}

/// These texts, one after another.
pub fn joined(alloc: Global, texts: &[&[u8]]) -> Result<Vec<u8>, AllocError> {
    let mut text = Vec::new(alloc);
    for part in texts {
        text.extend_from_slice(part)?;
    }
    Ok(text)
}

/// The text of these lines, with another one in place of the line of this number, from 1.
pub fn with_line(
    alloc: Global,
    lines: &[&[u8]],
    number: usize,
    other: &[u8],
) -> Result<Vec<u8>, AllocError> {
    let mut text = Vec::new(alloc);
    for (n, line) in lines.iter().enumerate() {
        let line = if n + 1 == number { other } else { line };
        text.extend_from_slice(line)?;
        text.push(b'\n')?;
    }
    Ok(text)
}
