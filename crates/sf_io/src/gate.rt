//! What holds an actor's thread before each step, as a trait, and the gate that holds none.
use std::sync::Wait;

/// What holds an actor's thread before each step, as a test does that wants two actors to meet.
pub trait Gate {
    /// Returns where this step of this actor may be tried. It is called once before the step's
    /// first try, by the thread of the actor, and it may wait. It answers nothing.
    fn pass<R: Wait>(&self, rt: &R, actor: u32, step: u32);
}

/// A gate that does nothing: each step passes at once.
#[derive(Clone, Copy)]
pub struct OpenGate;

impl Gate for OpenGate {
    fn pass<R: Wait>(&self, _rt: &R, _actor: u32, _step: u32) {}
}
