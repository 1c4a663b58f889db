//! The error of a call that runs out of memory.
use std::alloc::{AllocError, AllocFailed};

/// Out of memory. A call that answers it has changed nothing, and hands back what it was given.
#[derive(Clone, Copy)]
pub struct NoMemory;

impl From<AllocError> for NoMemory {
    fn from(_: AllocError) -> NoMemory {
        NoMemory
    }
}

impl<T: Drop> From<AllocFailed<T>> for NoMemory {
    fn from(_: AllocFailed<T>) -> NoMemory {
        NoMemory
    }
}
