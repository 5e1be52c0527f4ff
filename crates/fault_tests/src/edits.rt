// A day's text, edited at random.
use rand_core::utils::NextWord;
use rand_pcg::Lcg64Xsh32;
use std::alloc::{AllocError, Global};

/// Bytes that edits put into a text.
const BYTES: &[u8] = b",,,;\n\n\r\"\"0123456789::ABab/_ \xFF";

/// One of the numbers below `n`, or 0.
pub fn draw(words: &mut Lcg64Xsh32, n: usize) -> usize {
    (words.next_word() as usize).checked_rem(n).unwrap_or(0)
}

/// The text with a byte at a place changed, left out or put in.
fn with_byte(alloc: Global, words: &mut Lcg64Xsh32, text: &[u8]) -> Result<Vec<u8>, AllocError> {
    let place = draw(words, text.len());
    let kind = draw(words, 3);
    let drawn = draw(words, BYTES.len());
    let put = BYTES.get(drawn).copied().unwrap_or(b',');
    let mut edited = Vec::new(alloc);
    for (at, byte) in text.iter().enumerate() {
        if at == place && kind < 2 {
            edited.push(put)?;
        }
        if at != place || kind > 0 {
            edited.push(*byte)?;
        }
    }
    Ok(edited)
}

/// The text with a line left out, doubled, or moved to the end.
fn with_line(alloc: Global, words: &mut Lcg64Xsh32, text: &[u8]) -> Result<Vec<u8>, AllocError> {
    let lines = text.iter().filter(|b| **b == b'\n').count();
    let number = draw(words, lines);
    let kind = draw(words, 3);
    let mut edited = Vec::new(alloc);
    let mut moved = Vec::new(alloc);
    for (at, line) in text.split(|b| *b == b'\n').enumerate() {
        if at != number || kind == 1 {
            edited.extend_from_slice(line)?;
            edited.push(b'\n')?;
        }
        if at == number && kind > 0 {
            moved.extend_from_slice(line)?;
            moved.push(b'\n')?;
        }
    }
    edited.extend_from_slice(&moved)?;
    Ok(edited)
}

/// The text, edited once.
pub fn edited(alloc: Global, words: &mut Lcg64Xsh32, text: &[u8]) -> Result<Vec<u8>, AllocError> {
    if draw(words, 3) == 0 {
        with_line(alloc, words, text)
    } else {
        with_byte(alloc, words, text)
    }
}
