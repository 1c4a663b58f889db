//! Gates at which two actors meet before their steps, or rest.
use sf_io::Gate;
use std::alloc::Global;
use std::sync::atomic::{AtomicBool, AtomicU32, Ordering};
use std::sync::{Mutex, Wait};
use std::thread::yield_now;

/// A step, by the numbers of its actor and of itself.
pub type StepOf = (u64, u64);

/// For how many turns an actor waits for the one that it is to meet.
const MANY_TURNS: u32 = 100_000_000;

/// For how many it waits for one that has to be further than it, and can't be.
const FEW_TURNS: u32 = 1_000_000;

/// One of two actors that meet.
#[derive(Drop)]
struct Side {
    actor: u32,
    /// How many steps further than it the other one has to come.
    ahead: u32,
    /// The greatest of its steps before which the gate was entered.
    entered: AtomicU32,
}

impl Side {
    fn new(actor: u32, ahead: u32) -> Side {
        Side {
            actor,
            ahead,
            entered: AtomicU32::new(0),
        }
    }

    /// Waits for at most so many turns until the actor has come to a step, and returns whether it
    /// has.
    fn comes_to(&self, step: u32, turns: u32) -> bool {
        for _ in 0..turns {
            if self.entered.load(Ordering::SeqCst) >= step {
                return true;
            }
            yield_now();
        }
        false
    }
}

/// A gate that notes the steps before which it is passed, and at which two actors meet before each of
/// their first steps: each waits there until the other has come to its step of the same number, or
/// further. So the two can only go on where they have threads that run side by side.
#[derive(Drop)]
pub struct MeetingGate {
    passes: Mutex<Vec<StepOf>>,
    meetings: u32,
    turns: u32,
    one: Side,
    other: Side,
    gave_up: AtomicBool,
}

impl MeetingGate {
    /// A gate at which an actor and the next one meet so often. The next one waits there until the
    /// first is so many steps further than it.
    pub fn new(alloc: Global, one: u32, meetings: u32, ahead: u32) -> MeetingGate {
        MeetingGate {
            passes: Mutex::new(Vec::new(alloc)),
            meetings,
            turns: if ahead == 0 { MANY_TURNS } else { FEW_TURNS },
            one: Side::new(one, 0),
            other: Side::new(one.saturating_add(1), ahead),
            gave_up: AtomicBool::new(false),
        }
    }

    /// Whether an actor waited in vain.
    pub fn gave_up(&self) -> bool {
        self.gave_up.load(Ordering::SeqCst)
    }

    /// The steps before which it was passed, in the order in which it was, once no one passes it any
    /// more.
    pub fn into_passes(self) -> Vec<StepOf> {
        let MeetingGate { passes, .. } = self;
        passes.into_inner()
    }

    /// Out of memory leaves the step out, which shows as one that is missing.
    fn note<R: Wait>(&self, rt: &R, actor: u32, step: u32) {
        let mut passes = self.passes.lock(rt);
        let _ = passes.push((u64::from(actor), u64::from(step)));
    }

    /// Notes that this side came to a step, and waits for the other side, up to a number of looks.
    fn meet(&self, mine: &Side, others: &Side, step: u32) {
        mine.entered.store(step, Ordering::SeqCst);
        let awaited = step.saturating_add(mine.ahead);
        if step <= self.meetings && !others.comes_to(awaited, self.turns) {
            self.gave_up.store(true, Ordering::SeqCst);
        }
    }
}

impl Gate for MeetingGate {
    fn pass<R: Wait>(&self, rt: &R, actor: u32, step: u32) {
        self.note(rt, actor, step);
        if actor == self.one.actor {
            self.meet(&self.one, &self.other, step);
        } else if actor == self.other.actor {
            self.meet(&self.other, &self.one, step);
        }
    }
}

/// For how many turns an actor rests at a gate that lets all others go on.
const REST: u32 = 1_000;

/// A gate at which each actor rests before each step, so that who waits for a step sees it before
/// the next one.
pub struct SlowGate;

impl Gate for SlowGate {
    fn pass<R: Wait>(&self, _: &R, _: u32, _: u32) {
        for _ in 0..REST {
            yield_now();
        }
    }
}
