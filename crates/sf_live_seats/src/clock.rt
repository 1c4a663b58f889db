//! When a caller last called: the step and the stamp, which its next call has to be behind.

/// When a caller last did something: its step, and the stamp of the call.
#[derive(Clone, Copy, Drop)]
pub struct Clock {
    pub step: u32,
    pub stamp: u64,
}
