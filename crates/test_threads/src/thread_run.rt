//! What threads do at once. Each line is a word and how often; before it, where their number is not
//! fixed, how many threads.
ghost use Rattle.std.specs.Prelude.{◌≡◌, Some, IfOk};

use crate::counter::Counter;
use crate::lock_run::Run;
use crate::words::{number_or_0, words};
use crate::{crowd_run, intake_run, signals_run, write_run};
use sf_base::NoMemory;
use sf_calls::{CallFault, CallLock, Pass};
use std::alloc::Global;
use std::io;
use std::sync::Wait;
use std::thread::{Threads, join};

/// What both callers add: it fits into the total once.
const NUMBER: u64 = 60_000;

/// Adds the number. The total, or none where the call came back.
fn add_once<W: Wait>(
    rt: &W,
    lock: &CallLock<Counter>,
    pass: Pass<Counter>,
) -> Result<(Pass<Counter>, Option<u64>), NoMemory>
    requires own { pass.table ≡ lock.now }
    requires marked { pass.mark ≡ Some tt }
    ensures { IfOk result (λ r. r.0 ≡ record pass { seen = r.0.seen; turns = r.0.turns }) }
{
    let mut pass = pass;
    match pass.call(lock, rt, NUMBER) {
        Ok(total) => Ok((pass, Some(total))),
        Err(CallFault::NotYet(_)) => Ok((pass, None)),
        Err(CallFault::NoMemory(_)) => Err(NoMemory),
    }
}

/// Both callers add on a thread of their own: the counter, and what each got.
fn add_both<R: Threads + Wait + Sync>(
    rt: &R,
    alloc: Global,
) -> Result<(Counter, Option<u64>, Option<u64>), NoMemory> {
    let Run {
        lock,
        first,
        second,
    } = Run::open(alloc)?;
    let shared = &lock;
    let (one, two) = join(
        rt,
        || -> Result<(Pass<Counter>, Option<u64>), NoMemory>
            requires { (first.table ≡ shared.now) × (first.mark ≡ Some tt) }
            ensures { IfOk result (λ r. r.0 ≡ record first { seen = r.0.seen; turns = r.0.turns }) }
        { add_once(rt, shared, first) },
        || -> Result<(Pass<Counter>, Option<u64>), NoMemory>
            requires { (second.table ≡ shared.now) × (second.mark ≡ Some tt) }
            ensures { IfOk result (λ r. r.0 ≡ record second { seen = r.0.seen; turns = r.0.turns }) }
        { add_once(rt, shared, second) },
    );
    let (first, x) = one?;
    let (second, y) = two?;
    let run = Run {
        lock,
        first,
        second,
    };
    Ok((run.close()?, x, y))
}

/// Whether one of the calls is the whole history, and the other came back.
fn has_one_call(counter: &Counter, first: Option<u64>, second: Option<u64>) -> bool {
    match counter.calls() {
        [call] => {
            let (caller, other) = if call.by == 1 {
                (first, second)
            } else {
                (second, first)
            };
            counter.total() == NUMBER && caller == Some(call.reply) && other.is_none()
        }
        _ => false,
    }
}

/// How many of so many rounds made one call and handed the other back.
fn add_rounds<R: Threads + Wait + Sync>(rt: &R, alloc: Global, rounds: u64) -> u64 {
    let mut agreed = 0u64;
    for _ in 0..rounds {
        if let Ok((counter, first, second)) = add_both(rt, alloc)
            && has_one_call(&counter, first, second)
        {
            agreed = agreed.saturating_add(1);
        }
    }
    agreed
}

pub fn play<R: Print + Threads + Wait + Sync>(
    rt: &R,
    alloc: Global,
    lines: &[String],
) -> io::Result<()> {
    for line in lines {
        let [word, first, second, _] = words(line);
        let times = number_or_0(first);
        let count = match word {
            "signals" => signals_run::play(rt, alloc, times),
            "writes" => write_run::play(rt, alloc, times),
            "sends" => intake_run::play(rt, alloc, times),
            "adds" => add_rounds(rt, alloc, times),
            "add-ones" => crowd_run::play(rt, alloc, times, number_or_0(second)),
            _ => 0,
        };
        println!(rt; "{line}: {count}")?;
    }
    Ok(())
}
