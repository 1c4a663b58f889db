//! Many threads that call one counter under a lock.
ghost use Rattle.std.specs.Prelude.{◌≡◌, true, Some, []};

use crate::counter::Counter;
use sf_calls::{CallLock, Pass};
use std::alloc::Global;
use std::sync::Wait;
use std::thread;
use std::thread::Threads;

/// Adds 1 so often, unless a call is not done.
fn add_ones<W: Wait>(rt: &W, lock: &CallLock<Counter>, pass: Pass<Counter>, often: u64)
    requires own { pass.table ≡ lock.now }
    requires marked { pass.mark ≡ Some tt }
{
    let mut pass = pass;
    for _ in 0..often {
        if pass.call(lock, rt, 1).is_err() {
            return;
        }
    }
}

/// A pass for each of so many threads, which adds 1 so often. The pass that they were split off, once
/// all threads have ended.
fn add_at_once<R: Threads + Wait + Sync>(
    rt: &R,
    lock: &CallLock<Counter>,
    first: Pass<Counter>,
    threads: u32,
    often: u64,
) -> Pass<Counter>
    requires own { first.table ≡ lock.now }
    requires first { first.is_first ≡ true }
    requires number { first.by ≡ 0 }
    requires none { first.gave ≡ [] }
    requires marked { first.mark ≡ Some tt }
    ensures own { result.table ≡ lock.now }
    ensures marked { result.mark ≡ Some tt }
{
    thread::scope(
        thread::scope_env(),
        rt,
        move |scope| -> Pass<Counter>
            requires own { first.table ≡ lock.now }
            requires first { first.is_first ≡ true }
            requires number { first.by ≡ 0 }
            requires none { first.gave ≡ [] }
            requires marked { first.mark ≡ Some tt }
            ensures own { result.table ≡ lock.entry.now }
            ensures marked { result.mark ≡ Some tt }
        {
            let mut first = first;
            for last in 0..threads {
                let pass = first.split(lock, last + 1);
                let _ = scope.spawn(
                    move ||
                        requires own { pass.table ≡ lock.now }
                        requires marked { pass.mark ≡ Some tt }
                    { add_ones(rt, lock, pass, often) },
                );
            }
            first
        },
    )
}

/// So many threads add 1 so often, all to one counter: its total.
pub fn play<R: Threads + Wait + Sync>(rt: &R, alloc: Global, threads: u64, often: u64) -> u64 {
    let Ok(threads) = u32::try_from(threads) else {
        return 0;
    };
    let Ok((lock, first)) = CallLock::open(alloc, Counter::new(alloc), 0) else {
        return 0;
    };
    let mut first = add_at_once(rt, &lock, first, threads, often);
    first.call(&lock, rt, 0).unwrap_or(0)
}
