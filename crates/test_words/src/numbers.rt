//! The readers of plain numbers, flags and present times.
use std::str::SplitWhitespace;

/// The next word, as a number of 8 bits.
pub fn number8(words: &mut SplitWhitespace<'_>) -> Option<u8> {
    words.next()?.parse().ok()
}

/// The next word, as a number of 32 bits.
pub fn number32(words: &mut SplitWhitespace<'_>) -> Option<u32> {
    words.next()?.parse().ok()
}

/// The next word, as a number of 64 bits.
pub fn number64(words: &mut SplitWhitespace<'_>) -> Option<u64> {
    words.next()?.parse().ok()
}

/// The next word, as a coordinate: a signed number.
pub fn coordinate(words: &mut SplitWhitespace<'_>) -> Option<i32> {
    words.next()?.parse().ok()
}

/// The next word, `yes` or `no`.
pub fn flag(words: &mut SplitWhitespace<'_>) -> Option<bool> {
    match words.next()? {
        "yes" => Some(true),
        "no" => Some(false),
        _ => None,
    }
}

/// The next word, as the present time of a frame: a number, or `-` where the time is automatic.
pub fn present_time(words: &mut SplitWhitespace<'_>) -> Option<Option<u64>> {
    match words.next()? {
        "-" => Some(None),
        word => word.parse().ok().map(Some),
    }
}
