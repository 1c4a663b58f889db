//! The desk of an actor in a thread: each call of its steps goes over its own seats to a lock that
//! all share. The desk notes what a step does, so that the thread knows whom to wake.
use crate::locks::Locks;
use crate::noted::Noted;
use crate::seats::Seats;
use sf_actor::{Desk, DrawFault, Ending, Owing, QCall, QReply, ReadLease, TokensOf, WriteLease};
use sf_base::{ActorId, NoMemory, QueueId, Seen, TimelineId};
use sf_calls::CallFault;
use sf_intake::Transaction;
use sf_turns::TableName;
use sf_turns::sf_picture::Picture;
use std::alloc::Global;
use std::marker::Model;
use std::sync::Wait;

/// The desk of one caller among threads, but not of the first one: its seats, over locks that all share.
/// A call waits for its turn under a lock, so what the desk knows is not exact.
#[derive(Drop)]
pub struct SharedDesk<'a, R, B: TableName> {
    rt: &'a R,
    locks: &'a Locks<B>,
    seats: Seats<B>,
    noted: Noted,
}

impl<'a, R, B: TableName> Model for SharedDesk<'a, R, B> {
    ghost use Rattle.sf_live_seats.specs.Seats.{MaySend};
    ghost use Rattle.sf_live_seats.specs.Shared.{SharedOf};

    ghost Value = { SharedOf B };

    ghost view = { λ d. record { locks = d.locks.now; seats = d.seats } };

    ghost invariant = { λ d. MaySend B.table d.locks.now d.seats };
}

impl<'a, R, B: TableName> SharedDesk<'a, R, B> {
    ghost use Rattle.std.specs.Prelude.{◌≡◌};
    ghost use Rattle.sf_live_seats.specs.declared.locks.Locks.{Locks};
    ghost use Rattle.sf_live_seats.specs.Seats.{AreSeats, MaySend};
    ghost use Rattle.sf_live_seats.specs.Shared.{IsHome, home_of};

    /// A desk of these seats, over which nothing was done yet.
    pub fn new(rt: &'a R, locks: &'a Locks<B>, seats: Seats<B>) -> SharedDesk<'a, R, B>
        requires { MaySend B.table locks.now seats }
        ensures is { result ≡ record { locks = locks.entry.now; seats = seats } }
        ensures home { IsHome locks.entry.now (home_of result) }
    {
        SharedDesk {
            rt,
            locks,
            seats,
            noted: Noted::nothing(),
        }
    }

    /// The seats, which are ones of each locks that have the desk's home, and what was done over the desk.
    pub fn into_parts(self) -> (Seats<B>, Noted)
        ensures seats { result.0 ≡ self.entry.seats }
        ensures own { (locks : Locks B) → IsHome locks (home_of self.entry) → AreSeats B.table locks result.0 }
    {
        let SharedDesk {
            rt: _,
            locks: _,
            seats,
            noted,
        } = self;
        (seats, noted)
    }
}

impl<'a, R: Wait, B: TableName> Desk<TokensOf<B>> for SharedDesk<'a, R, B> {
    ghost use Rattle.sf_live_seats.specs.Shared.{home_of, view_of};

    ghost home = { home_of };

    ghost view = { view_of };

    fn exact(&self) {}

    fn call(
        &mut self,
        by: ActorId,
        queue: QueueId,
        step: u32,
        call: QCall<B>,
    ) -> Result<QReply<B>, CallFault<QCall<B>>> {
        let _ = by;
        self.noted.note_call(queue);
        self.seats.call(self.locks, self.rt, queue, step, call)
    }

    fn send(
        &mut self,
        by: ActorId,
        step: u32,
        txn: Transaction<ReadLease<B>>,
    ) -> Result<u32, (NoMemory, Transaction<ReadLease<B>>)> {
        let _ = by;
        self.noted.note_send();
        self.seats.send(self.locks, self.rt, step, txn)
    }

    fn signal(&mut self, t: TimelineId, v: u64) {
        self.noted.note_signal();
        self.seats.times.signal(&self.locks.times, t, v);
    }

    fn see(&mut self) -> Seen {
        self.seats.times.see_all(&self.locks.times)
    }

    fn paint(
        &mut self,
        alloc: Global,
        lease: WriteLease<B>,
        picture: &Picture,
        seen: &Seen,
    ) -> Result<WriteLease<B>, DrawFault<WriteLease<B>>> {
        self.noted.note_drawing();
        lease.draw(alloc, &mut self.seats.turns, picture, seen)
    }

    fn pay(
        &mut self,
        alloc: Global,
        owing: Owing<B>,
        picture: &Picture,
        seen: &Seen,
    ) -> Result<(), DrawFault<Owing<B>>> {
        self.noted.note_drawing();
        self.noted.note_end();
        owing.draw(alloc, &mut self.seats.turns, picture, seen)
    }

    fn end(&mut self, ending: Ending<B>) {
        self.noted.note_end();
        ending.end(&mut self.seats.turns);
    }
}
