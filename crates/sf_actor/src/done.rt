//! A step that is done, with what it answered: what an actor's trace is made of.
use sf_script_scene::Step;
use sf_surface::PlainReply;

/// What a step answered.
#[derive(Drop)]
pub enum Answered {
    /// A status of the actor's own: 0, or the number of the test that refused the step.
    Own(u32),
    /// The reply to the call that the step made on a queue.
    Called(PlainReply),
    /// The arrival number of the transaction that it sent.
    Sent(u32),
}

/// A step that is done.
pub struct Done {
    pub step: Step,
    pub answered: Answered,
}

impl Drop for Done {
    fn drop(self) {
        let Done {
            step: _,
            answered: _,
        } = self;
    }
}
