//! The arrivals of a case under a lock, with a pass for each of two actors.
ghost use Rattle.std.specs.Prelude.{◌≡◌, true, Some, [], ◌∷◌};

use sf_base::ActorId;
use sf_calls::{CallLock, Pass};
use sf_token::{Arrivals, ArriveCall, ArriveReply};
use std::alloc::Global;
use std::marker::Brand;
use std::sync::Wait;
use test_leases::Page;

/// Makes a call under the lock.
fn call<W: Wait>(
    rt: &W,
    lock: &CallLock<Arrivals<Page, Brand>>,
    pass: &mut Pass<Arrivals<Page, Brand>>,
    call: ArriveCall<Page>,
) -> Option<ArriveReply<Page>>
    requires own { pass.old.table ≡ lock.now }
    requires marked { pass.old.mark ≡ Some tt }
    ensures { pass.new ≡ record pass.old { seen = pass.new.seen; turns = pass.new.turns } }
{
    pass.call(lock, rt, call).ok()
}

/// A lock over what arrives, with the passes of two actors.
#[derive(Drop)]
pub struct Line {
    lock: CallLock<Arrivals<Page, Brand>>,
    first: Pass<Arrivals<Page, Brand>>,
    second: Pass<Arrivals<Page, Brand>>,
    ghost own: { first.table ≡ lock },
    ghost leads: { first.is_first ≡ true },
    ghost gave: { first.gave ≡ 2 ∷ [] },
    ghost marked: { first.mark ≡ Some tt },
    ghost other: { second.table ≡ lock },
    ghost named: { second.by ≡ 2 },
    ghost same: { second.mark ≡ Some tt },
}

impl Line {
    /// A lock under which nothing arrived.
    pub fn new(alloc: Global) -> Option<Line> {
        Line::open(alloc, Arrivals::new(alloc).ok()?)
    }

    /// A lock over what arrived so far.
    pub fn open(alloc: Global, arrivals: Arrivals<Page, Brand>) -> Option<Line> {
        let (lock, mut first) = CallLock::open(alloc, arrivals, 1).ok()?;
        let second = first.split(&lock, 2);
        Some(Line {
            lock,
            first,
            second,
        })
    }

    /// A call of actor 1 or 2.
    pub fn call<W: Wait>(
        &mut self,
        rt: &W,
        by: ActorId,
        of: ArriveCall<Page>,
    ) -> Option<ArriveReply<Page>> {
        match by {
            ActorId(1) => call(rt, &self.lock, &mut self.first, of),
            ActorId(2) => call(rt, &self.lock, &mut self.second, of),
            _ => None,
        }
    }

    /// What arrived, out of the lock, after the first pass met the other.
    pub fn close(self) -> Arrivals<Page, Brand> {
        let Line {
            lock,
            mut first,
            second,
        } = self;
        first.meet(&lock, second);
        match lock.close(first) {
            Ok(arrivals) => arrivals,
            Err(_) => unreachable!(),
        }
    }
}
