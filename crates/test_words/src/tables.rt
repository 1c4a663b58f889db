//! The reader of names that a table has.

/// What a table has for this name.
pub fn named<T: Copy>(table: &[(&str, T)], name: &str) -> Option<T> {
    for (known, found) in table {
        if *known == name {
            return Some(*found);
        }
    }
    None
}
