//! One queue under a lock, and the passes of its two callers.
ghost use Rattle.std.specs.Prelude.{◌≡◌, ◌≤◌, true, Some, [], ◌∷◌};
ghost use Rattle.sf_surface.specs.Marks.{PermitFits};

use crate::tools::Made;
use sf_base::{NoMemory, QueueId};
use sf_calls::{CallLock, Pass};
use sf_surface::{QCall, QueueMark, QueueObject};
use sf_turns::TableName;
use std::alloc::Global;
use std::io;
use std::sync::Wait;

/// Who makes a call: the actor 1 or 2.
#[derive(Clone, Copy)]
pub enum Caller {
    First,
    Second,
}

/// The numbers of both actors' steps.
#[derive(Clone, Copy)]
pub struct Steps {
    pub first: u32,
    pub second: u32,
}

impl Steps {
    /// The number of a caller's next step, which begins.
    pub fn next(&mut self, by: Caller) -> u32 {
        let step = match by {
            Caller::First => &mut self.first,
            Caller::Second => &mut self.second,
        };
        *step = step.wrapping_add(1);
        *step
    }
}

/// The lock with the passes of both actors.
#[derive(Drop)]
pub struct Desk<B: TableName> {
    lock: CallLock<QueueObject<B>>,
    first: Pass<QueueObject<B>>,
    second: Pass<QueueObject<B>>,
    mark: QueueMark,
    ghost own: { first.table ≡ lock },
    ghost leads: { first.is_first ≡ true },
    ghost gave: { first.gave ≡ 2 ∷ [] },
    ghost took: { first.took ≡ [] },
    ghost marked: { first.mark ≡ Some mark },
    ghost other: { second.table ≡ lock },
    ghost named: { second.by ≡ 2 },
    ghost same: { second.mark ≡ Some mark },
}

/// Makes a call under the lock.
fn ask<B: TableName, W: Wait>(
    rt: &W,
    lock: &CallLock<QueueObject<B>>,
    pass: &mut Pass<QueueObject<B>>,
    _mark: QueueMark,
    call: (u32, QCall<B>),
) -> Made<B>
    requires own { pass.old.table ≡ lock.now }
    requires marked { pass.old.mark ≡ Some _mark }
    requires fits { PermitFits B.table call.1 }
    ensures { pass.new ≡ record pass.old { seen = pass.new.seen; turns = pass.new.turns } }
{
    pass.call(lock, rt, call)
}

impl<B: TableName> Desk<B> {
    /// A new queue under a lock, of this default size in pixels.
    pub fn open(alloc: Global, width: u32, height: u32) -> Result<Desk<B>, NoMemory>
        requires wide { 1 ≤ width }
        requires narrow { width ≤ 512 }
        requires high { 1 ≤ height }
        requires low { height ≤ 512 }
    {
        let mark = QueueMark {
            queue: QueueId(1),
            width,
            height,
        };
        let object: QueueObject<B> = QueueObject::new(alloc, mark.queue, width, height)?;
        let Ok((lock, mut first)) = CallLock::open(alloc, object, 1) else {
            return Err(NoMemory);
        };
        let second = first.split(&lock, 2);
        Ok(Desk {
            lock,
            first,
            second,
            mark,
        })
    }

    /// Makes a call of a caller's step.
    pub fn call<W: Wait>(&mut self, rt: &W, by: Caller, call: (u32, QCall<B>)) -> Made<B>
        requires { PermitFits B.table call.1 }
    {
        match by {
            Caller::First => ask(rt, &self.lock, &mut self.first, self.mark, call),
            Caller::Second => ask(rt, &self.lock, &mut self.second, self.mark, call),
        }
    }

    /// Takes the second pass in, and prints the history of the queue.
    pub fn close(self, rt: &impl Print) -> io::Result<()> {
        let Desk {
            lock,
            mut first,
            second,
            mark: _,
        } = self;
        first.meet(&lock, second);
        match lock.close(first) {
            Ok(object) => print_history(rt, &object),
            Err(_) => unreachable!(),
        }
    }
}

/// Prints the calls on a queue, as records show them.
fn print_history<B: TableName>(rt: &impl Print, object: &QueueObject<B>) -> io::Result<()> {
    for entry in object.entries() {
        println!(rt;
            "  {}.{}: kind {}, status {}, slot {}, frame {}",
            entry.caller, entry.step, entry.kind, entry.status, entry.slot, entry.frame
        )?;
    }
    Ok(())
}
