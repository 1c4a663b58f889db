//! What a try of a step returns: its reply, or why it is not done yet.
use sf_base::Items;

/// The reply of a step, as records show it.
pub struct Reply {
    /// The actor's number.
    pub actor: u32,
    /// The step's place in the script, from 1.
    pub step: u32,
    /// 0 where the step was done.
    pub status: u32,
    /// The values that the step gave, none where it was refused.
    pub values: Items<u64>,
}

/// What a try of the next step did.
#[derive(Drop)]
pub enum Stepped {
    /// The step is done. Its reply is the newest one.
    Done,
    /// It is not time for the step yet.
    NotYet,
    /// All steps are done.
    Ended,
}

impl Drop for Reply {
    fn drop(self) {
        let Reply {
            actor: _,
            step: _,
            status: _,
            values: _,
        } = self;
    }
}
