// Names that are near to one another.

/// How many bytes two words have in common at the front, whether small or capital.
fn common_front(a: &[u8], b: &[u8]) -> usize {
    a.iter()
        .zip(b)
        .take_while(|(x, y)| x.eq_ignore_ascii_case(y))
        .count()
}

/// How many bytes two words have in common at the back, whether small or capital.
fn common_back(a: &[u8], b: &[u8]) -> usize {
    a.iter()
        .rev()
        .zip(b.iter().rev())
        .take_while(|(x, y)| x.eq_ignore_ascii_case(y))
        .count()
}

/// Whether two words differ by one letter at most, that is another one, missing or too many; small and capital letters are
/// the same here.
pub fn is_near(a: &[u8], b: &[u8]) -> bool {
    let common = common_front(a, b).saturating_add(common_back(a, b));
    let longer = a.len().max(b.len());
    a.len().abs_diff(b.len()) <= 1 && longer <= common.saturating_add(1)
}
