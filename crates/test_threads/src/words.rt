//! The words of a line.

/// The first four words of a line; those that it lacks are empty.
pub fn words(line: &str) -> [&str; 4] {
    let mut words = line.split_whitespace();
    let first = words.next().unwrap_or("");
    let second = words.next().unwrap_or("");
    let third = words.next().unwrap_or("");
    let fourth = words.next().unwrap_or("");
    [first, second, third, fourth]
}

/// The number that a word is.
pub fn number(word: &str) -> Option<u64> {
    word.parse().ok()
}

/// The number that a word is, or 0.
pub fn number_or_0(word: &str) -> u64 {
    number(word).unwrap_or(0)
}
