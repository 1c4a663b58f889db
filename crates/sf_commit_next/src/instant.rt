//! The instant of a vsync, which decides which holds have ended.
use sf_base::Seen;

/// The instant of a vsync: what was seen of the timelines, and the present time in nanoseconds at
/// which its frame is expected.
#[derive(Clone, Copy)]
pub struct Instant<'a> {
    pub seen: &'a Seen,
    pub expected: u64,
}
