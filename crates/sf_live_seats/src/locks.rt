//! What the threads of a run share by reference: each queue under a lock, the arrivals, the
//! timelines. A run opens them with the first seats, and closes them into a desk of one thread.
ghost use Rattle.std.specs.Prelude.{◌≡◌, ℕ, [], ◌∷◌, Contains, IfOk};
ghost use Rattle.std.specs.List.{AllByRecursion, AllZip, position};
ghost use Rattle.sf_calls.specs.Passes.{first_pass};
ghost use Rattle.sf_actor.specs.Desks.{has_queue};
ghost use Rattle.sf_actor.specs.Plain.{view_of as plain_view};
ghost use Rattle.sf_live_seats.specs.declared.seats.Seats.{Seats};
ghost use Rattle.sf_live_seats.specs.Closing.{AreOpened, HasNoCalls, IsOpened, Opens, OpensIntake};
ghost use Rattle.sf_live_seats.specs.Closing.{AllGoOn, AreArrivalsClosed, AreClosed, Closes, HasNoEntry, IsClosed, IsLast, IsLastAtArrivals, IsOrdered};
ghost use Rattle.sf_live_seats.specs.First.{HasAll, IsFirst, gave_of};
ghost use Rattle.sf_live_seats.specs.Seats.{AreSeats, home_of, is_lock};

use crate::arrivals::StampedArrivals;
use crate::arrivals_seat::ArrivalsSeat;
use crate::at_intake::AtIntake;
use crate::clock::Clock;
use crate::first::FirstSeats;
use crate::inbox::Inbox;
use crate::queue_seat::QueueSeat;
use crate::seats::{Seats, SeatsParts};
use crate::shown::Shown;
use sf_actor::{PlainDesk, QueueObject, ReadLease};
use sf_base::{NoMemory, QueueId};
use sf_calls::CallLock;
use sf_calls_stamped::Stamped;
use sf_intake::{Arrivals, Intake};
use sf_times::Timelines;
use sf_turns::TableName;
use std::alloc::Global;
use std::marker::Brand;
use std::snapshot::Snapshot;

/// A queue under a lock, with its number.
pub struct QueueLock<B: TableName> {
    pub(crate) number: QueueId,
    pub(crate) lock: CallLock<Stamped<QueueObject<B>>>,
    // The queue as it was opened, for proofs alone.
    pub(crate) opened: Snapshot<QueueObject<B>>,
}

/// What threads share by reference: each queue under a lock, the arrivals under another, and the
/// timelines.
pub struct Locks<B: TableName> {
    pub(crate) queues: Vec<QueueLock<B>>,
    pub(crate) arrivals: CallLock<StampedArrivals<B>>,
    pub(crate) times: Timelines,
    // Where transactions come without a lock, what they come through. A sender learns no place
    // then.
    pub(crate) intake: Option<Intake<ReadLease<B>, Brand>>,
}

/// A queue without calls under a lock, with the first caller's pass.
fn open_queue<B: TableName>(
    alloc: Global,
    object: QueueObject<B>,
) -> Result<(QueueLock<B>, QueueSeat<B>), NoMemory>
    requires { object.calls ≡ [] }
    ensures { IfOk result (λ opened. IsOpened object opened.0 opened.1) }
{
    let number = object.queue();
    let opened = Snapshot::of(&object);
    match CallLock::open(alloc, Stamped::new(alloc, object), 0) {
        Ok((lock, pass)) => Ok((
            QueueLock {
                number,
                lock,
                opened,
            },
            QueueSeat::of(pass),
        )),
        Err(_refused) => Err(NoMemory),
    }
}

/// Queues without calls, each under a lock.
fn open_queues<B: TableName>(
    alloc: Global,
    objects: Vec<QueueObject<B>>,
) -> Result<(Vec<QueueLock<B>>, Vec<QueueSeat<B>>), NoMemory>
    requires { AllByRecursion HasNoCalls objects.items }
    ensures { IfOk result (λ opened. AreOpened objects.items opened.0.items opened.1.items) }
{
    let mut locks = Vec::new(alloc);
    let mut passes = Vec::new(alloc);
    for object in objects {
        let (lock, pass) = open_queue(alloc, object)?;
        locks.push(lock)?;
        passes.push(pass)?;
    }
    Ok((locks, passes))
}

/// The arrivals, where nothing arrived yet, under a lock, with the first caller's pass.
fn open_arrivals<B: TableName>(
    alloc: Global,
    arrivals: Arrivals<ReadLease<B>, Brand>,
) -> Result<(CallLock<StampedArrivals<B>>, ArrivalsSeat<B>), NoMemory>
    requires { arrivals ≡ [] }
    ensures { IfOk result (λ opened. opened.1 ≡ first_pass opened.0 0 tt []) }
{
    match CallLock::open(alloc, StampedArrivals::new(alloc, arrivals), 0) {
        Ok((lock, pass)) => Ok((lock, ArrivalsSeat::of(pass))),
        Err(_refused) => Err(NoMemory),
    }
}

/// The arrivals out of their lock.
fn close_arrivals<B: TableName>(
    lock: CallLock<StampedArrivals<B>>,
    seat: ArrivalsSeat<B>,
) -> Arrivals<ReadLease<B>, Brand>
    requires { IsLastAtArrivals lock seat }
    ensures { AreArrivalsClosed seat result }
{
    match lock.close(seat.into_pass()) {
        Ok(stamped) => stamped.into_arrivals(),
        Err(_refused) => unreachable!(),
    }
}

/// The queues out of their locks.
fn close_queues<B: TableName>(
    alloc: Global,
    locks: Vec<QueueLock<B>>,
    passes: Vec<QueueSeat<B>>,
) -> Result<Vec<QueueObject<B>>, NoMemory>
    requires { AllZip IsLast locks.items passes.items }
    ensures { IfOk result (λ objects. AreClosed locks.items passes.items objects.items) }
{
    let mut objects = Vec::new(alloc);
    let mut passes = passes.into_iter();
    for lock in locks {
        let Some(pass) = passes.next() else {
            unreachable!()
        };
        objects.push(lock.close(pass))?;
    }
    Ok(objects)
}

/// An intake, where no places are reported, and what the first caller has there.
fn open_intake<B: TableName>(
    alloc: Global,
    tells: bool,
) -> Result<(Option<Intake<ReadLease<B>, Brand>>, AtIntake<B>), NoMemory>
    ensures { IfOk result (λ opened. OpensIntake tells opened.0 opened.1) }
{
    if tells {
        return Ok((None, AtIntake::Nothing));
    }
    let (intake, taker) = Intake::open(alloc)?;
    Ok((Some(intake), AtIntake::Takes(Inbox::of(alloc, taker))))
}

/// The place of the queue of this number.
pub(crate) fn place_in<B: TableName>(locks: &[QueueLock<B>], queue: QueueId) -> Option<usize>
    ensures { result ≡ position (is_lock queue.0) locks.now }
{
    for place in 0..locks.len() {
        let lock = &locks[place];
        if lock.number.0 == queue.0 {
            return Some(place);
        }
    }
    None
}

impl<B: TableName> Locks<B> {
    /// Whether there is a queue of this number.
    pub fn has_queue(&self, queue: QueueId) -> bool
        ensures { (seats : Seats B) → AreSeats B.table self.now seats → has_queue (home_of self.now seats) queue.0 ≡ result }
    {
        place_in(&self.queues, queue).is_some()
    }

    /// What threads are to share, of a desk at which nothing was called yet, and the first caller's
    /// seats, with the number 0. Where a sender is to learn no place, transactions come through an
    /// intake. Its only error is out of memory.
    pub fn open(
        alloc: Global,
        desk: PlainDesk<B>,
        tells: bool,
    ) -> Result<(Locks<B>, FirstSeats<B>), NoMemory>
        requires no_calls { AllByRecursion HasNoCalls desk.queues }
        requires none_arrived { desk.arrivals ≡ [] }
        ensures first { IfOk result (λ opened. IsFirst B.table opened.0 opened.1) }
        ensures opened { IfOk result (λ opened. Opens tells desk.queues desk.times desk.turns opened.0 opened.1) }
    {
        let PlainDesk {
            queues,
            arrivals,
            table,
            times,
            turns,
            tells: _,
        } = desk;
        let (queues, passes) = open_queues(alloc, queues)?;
        let (intake, at_intake) = open_intake(alloc, tells)?;
        let (lock, pass) = open_arrivals(alloc, arrivals)?;
        let locks = Locks {
            queues,
            arrivals: lock,
            times: table,
            intake,
        };
        let seats = Seats {
            by: 0,
            last: Clock { step: 0, stamp: 0 },
            queues: passes,
            arrivals: Shown::of(&pass),
            pass: Some(pass),
            intake: at_intake,
            times,
            turns,
        };
        Ok((locks, FirstSeats::of(alloc, seats)))
    }

    /// The queues, the arrivals, the timelines and the first seats, once these took in all that they
    /// gave, as a desk of one thread. It knows what the first seats know, and what each caller knew
    /// goes on in it with no entry of that caller; nobody called but these.
    pub fn close(self, alloc: Global, first: FirstSeats<B>) -> Result<PlainDesk<B>, NoMemory>
        requires first { IsFirst B.table self first }
        requires all { HasAll first }
        ensures closed { IfOk result (Closes self first) }
        ensures ordered { IfOk result (λ desk. IsOrdered first) }
        ensures goes_on { IfOk result (AllGoOn self first) }
        ensures nobody { IfOk result (λ desk. (by : ℕ) → (Contains (first.seats.by ∷ gave_of first) by → ⊥) → HasNoEntry by (plain_view desk)) }
    {
        let Locks {
            queues,
            arrivals,
            times: table,
            intake,
        } = self;
        let FirstSeats { seats, took: _ } = first;
        let SeatsParts {
            by: _,
            last: _,
            queues: passes,
            arrivals: _,
            pass,
            intake: _,
            times,
            turns,
        } = seats.into_parts();
        let Some(pass) = pass else { unreachable!() };
        let arrivals = close_arrivals(arrivals, pass);
        let queues = close_queues(alloc, queues, passes)?;
        Ok(PlainDesk::new(queues, arrivals, table, times, turns, intake.is_none()))
    }
}

impl<B: TableName> QueueLock<B> {
    /// The queue out of its lock.
    fn close(self, seat: QueueSeat<B>) -> QueueObject<B>
        requires own { IsLast self seat }
        ensures { IsClosed self seat result }
    {
        let QueueLock {
            number: _,
            lock,
            opened: _,
        } = self;
        match lock.close(seat.into_pass()) {
            Ok(stamped) => stamped.into_object(),
            Err(_refused) => unreachable!(),
        }
    }
}

impl<B: TableName> Drop for QueueLock<B> {
    fn drop(self) {
        let QueueLock {
            number: _,
            lock: _,
            opened: _,
        } = self;
    }
}

impl<B: TableName> Drop for Locks<B> {
    fn drop(self) {
        let Locks {
            queues: _,
            arrivals: _,
            times: _,
            intake: _,
        } = self;
    }
}
