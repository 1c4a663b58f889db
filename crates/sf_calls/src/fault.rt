//! Why a call under a lock was not made.

/// Why a call was not made. The call comes back as it was handed in.
#[derive(Drop)]
pub enum CallFault<C> {
    /// The object answered under the lock that it is not time for the call yet.
    NotYet(C),
    /// Out of memory.
    NoMemory(C),
}
