//! Calls on a counter under a lock, by the callers 1 and 2.
ghost use Rattle.std.specs.Prelude.{◌≡◌, true, Some, [], ◌∷◌};

use crate::answer::Answer;
use crate::counter::Counter;
use crate::seat::Seat;
use crate::words::{number, words};
use sf_base::NoMemory;
use sf_calls::{CallFault, CallLock, Pass};
use std::alloc::Global;
use std::io;
use std::sync::Wait;

/// A number that one of the callers adds.
#[derive(Clone, Copy)]
struct Call {
    by: Seat,
    number: u64,
}

fn call_of(line: &str) -> Option<Call> {
    let [by, number_word, _, _] = words(line);
    let by = Seat::of(by)?;
    let number = number(number_word)?;
    Some(Call { by, number })
}

/// Adds the number, as one call under the lock.
pub fn add<W: Wait>(
    rt: &W,
    lock: &CallLock<Counter>,
    pass: &mut Pass<Counter>,
    number: u64,
) -> Answer
    requires own { pass.old.table ≡ lock.now }
    requires marked { pass.old.mark ≡ Some tt }
    ensures { pass.new ≡ record pass.old { seen = pass.new.seen; turns = pass.new.turns } }
{
    match pass.call(lock, rt, number) {
        Ok(total) => Answer::Value(total),
        Err(CallFault::NotYet(back)) => Answer::NotYet(back),
        Err(CallFault::NoMemory(_)) => Answer::Plain("out of memory"),
    }
}

/// A lock with the passes of both callers.
#[derive(Drop)]
pub struct Run {
    pub lock: CallLock<Counter>,
    pub first: Pass<Counter>,
    pub second: Pass<Counter>,
    ghost own: { first.table ≡ lock },
    ghost leads: { first.is_first ≡ true },
    ghost gave: { first.gave ≡ 2 ∷ [] },
    ghost marked: { first.mark ≡ Some tt },
    ghost other: { second.table ≡ lock },
    ghost named: { second.by ≡ 2 },
    ghost same: { second.mark ≡ Some tt },
}

impl Run {
    /// A new counter under a lock.
    pub fn open(alloc: Global) -> Result<Run, NoMemory> {
        let Ok((lock, mut first)) = CallLock::open(alloc, Counter::new(alloc), 1) else {
            return Err(NoMemory);
        };
        let second = first.split(&lock, 2);
        Ok(Run {
            lock,
            first,
            second,
        })
    }

    fn call<W: Wait>(&mut self, rt: &W, call: Call) -> Answer {
        match call.by {
            Seat::First => add(rt, &self.lock, &mut self.first, call.number),
            Seat::Second => add(rt, &self.lock, &mut self.second, call.number),
        }
    }

    /// The counter out of the lock, after the first pass met the other.
    pub fn close(self) -> Result<Counter, NoMemory> {
        let Run {
            lock,
            mut first,
            second,
        } = self;
        first.meet(&lock, second);
        match lock.close(first) {
            Ok(counter) => Ok(counter),
            Err(_) => Err(NoMemory),
        }
    }
}

/// The calls of the object, the oldest first.
fn print_history(rt: &impl Print, counter: &Counter) -> io::Result<()> {
    for entry in counter.calls() {
        println!(rt; "{} added {}: {}", entry.by, entry.call, entry.reply)?;
    }
    Ok(())
}

pub fn play<R: Print + Wait>(rt: &R, alloc: Global, calls: &[String]) -> io::Result<()> {
    let Ok(mut run) = Run::open(alloc) else {
        return println!(rt; "out of memory");
    };
    for line in calls {
        let answer = match call_of(line) {
            Some(call) => run.call(rt, call),
            None => Answer::Plain("no call"),
        };
        println!(rt; "{line}: {answer}")?;
    }
    match run.close() {
        Ok(counter) => print_history(rt, &counter),
        Err(_) => println!(rt; "out of memory"),
    }
}
