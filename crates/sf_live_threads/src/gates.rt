//! For how many steps of an actor its gate was passed, so that it is passed once for each step,
//! however often that is tried.
ghost use Rattle.std.specs.Prelude.{◌≡◌, ◌+◌, ◌≤◌, length};
ghost use Rattle.sf_live_threads.specs.Gates.{HasPassed, IsReady};

use sf_actor_steps::Actor;
use sf_io::Gate;
use sf_turns::TableName;
use std::sync::Wait;

/// For how many steps of an actor the gate was passed: for each once, before its first try.
#[derive(Clone, Copy)]
pub struct Gates {
    passed: u32,
}

impl Gates {
    /// The gate was not passed yet.
    pub(crate) fn new() -> Gates
        ensures { result.passed ≡ 0 }
    {
        Gates { passed: 0 }
    }

    /// Passes the gate for one more step.
    fn pass<R: Wait, G: Gate>(self, rt: &R, gate: &G, actor: u32) -> Gates
        requires { self.passed + 1 ≤ 4294967295 }
        ensures { result.passed ≡ self.passed + 1 }
    {
        let passed = self.passed + 1;
        gate.pass(rt, actor, passed);
        Gates { passed }
    }

    /// Passes the gate for the actor's next step, if one is left for which that was not done.
    pub fn ready<R: Wait, G: Gate, B: TableName>(self, rt: &R, gate: &G, actor: &Actor<B>) -> Gates
        requires few { length actor.now.script.steps ≤ 4294967295 }
        ensures { HasPassed actor.now self → IsReady actor.now result }
    {
        if actor.is_ended() || self.passed as usize > actor.replies().len() {
            return self;
        }
        self.pass(rt, gate, actor.number())
    }
}
