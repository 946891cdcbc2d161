// Words that are nearly another.

/// Whether the word is one of these names.
pub fn is_one_of(word: &[u8], names: &str) -> bool {
    names
        .split_ascii_whitespace()
        .any(|name| name.as_bytes() == word)
}

/// The first of these names that the word is but for small and capital letters, or else that it is like.
pub fn nearest(word: &[u8], names: &'static str) -> Option<&'static str> {
    let is_same = |name: &&str| word.eq_ignore_ascii_case(name.as_bytes());
    let same = names.split_ascii_whitespace().find(is_same);
    same.or(
        names
            .split_ascii_whitespace()
            .find(|name| is_like(word, name.as_bytes())),
    )
}

/// Whether a word is the other, but for small and capital letters, or differs from it in one place.
pub fn is_like(a: &[u8], b: &[u8]) -> bool {
    a.eq_ignore_ascii_case(b) || (a.len().min(b.len()) >= 3 && is_near(a, b))
}

/// Whether one letter more or less, another letter, or two letters in the other order make the one of the other.
fn is_near(a: &[u8], b: &[u8]) -> bool {
    let common = a
        .iter()
        .zip(b.iter())
        .take_while(|(x, y)| **x == **y)
        .count();
    let (a, b) = (a.get(common..).unwrap_or(a), b.get(common..).unwrap_or(b));
    match (a, b) {
        ([_, xs @ ..], [_, ys @ ..]) if xs == ys => true,
        ([_, xs @ ..], ys) if xs == ys => true,
        (xs, [_, ys @ ..]) if xs == ys => true,
        ([w, x, xs @ ..], [y, z, ys @ ..]) => *w == *z && *x == *y && xs == ys,
        _ => a.is_empty() && b.is_empty(),
    }
}
