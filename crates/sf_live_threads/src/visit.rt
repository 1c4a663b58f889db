//! What the starter of the threads does whenever something was done, here as a trait:
//! `sf_live_compositor` implements it, and makes its vsyncs in visits.
ghost use Rattle.std.specs.Prelude.{OnErr, OnOk};
ghost use Rattle.sf_live_seats.specs.declared.first.FirstSeats.{FirstSeats as FirstIn};
ghost use Rattle.sf_live_seats.specs.declared.locks.Locks.{Locks as LocksIn};
ghost use Rattle.sf_live_seats.specs.First.{IsFirst};
ghost use Rattle.sf_live_threads.specs.Visits.{LeavesGiven};

use sf_live_seats::{FirstSeats, Locks};
use sf_live_watch::{Effect, Slots, Watch};
use sf_turns::TableName;
use std::sync::Wait;
use std::thread::Threads;

/// A visitor can do no more. It keeps the cause.
#[derive(Clone, Copy)]
pub struct Ended;

/// What a visitor brings that gave buffers back, whose pixels it reads still.
const GIVEN: Effect = Effect {
    slots: Slots::OfAny,
    points: false,
    turns: false,
    looks: false,
};

/// What it brings once it reads them no more: turns at them end, too.
const READ: Effect = Effect {
    turns: true,
    ..GIVEN
};

/// A visitor's look at all that was done.
#[derive(Clone, Copy)]
pub struct Look<'a> {
    pub(crate) watch: &'a Watch,
}

impl<'a> Look<'a> {
    /// All that was done up to now is looked at by what follows.
    pub fn begin(&self) {
        self.watch.look_on();
    }

    /// Notifies threads that wait for it that all was looked at, and, where buffers were given back,
    /// those that wait for one. Their pixels may be read still.
    pub fn tell_given<R: Wait>(&self, rt: &R, gave: bool) {
        self.tell(rt, gave, GIVEN);
    }

    /// The same once the pixels are read no more: those are notified, too, that wait for a turn at them.
    pub fn tell_read<R: Wait>(&self, rt: &R, gave: bool) {
        self.tell(rt, gave, READ);
    }

    /// The visit is over; and whether another one may do more, though nothing else is done.
    pub(crate) fn end(&self, goes_on: bool) {
        self.watch.tell_looked();
        if goes_on {
            self.watch.look_again();
        }
    }

    /// All was looked at; and where buffers were given back, that has this effect.
    fn tell<R: Wait>(&self, rt: &R, gave: bool, effect: Effect) {
        self.watch.tell_looked();
        if gave {
            self.watch.tell_done(rt, effect);
        }
    }
}

/// What the thread that starts the others does meanwhile, with the first seats, as a compositor
/// does its vsyncs.
pub trait Visit<R: Threads + Wait + Sync, B: TableName> {
    /// What it keeps since it was the first one, of itself and of what the first seats know.
    ghost keeps: { Self → Self → LocksIn B → FirstIn B → Type 0 };

    /// What it keeps of itself since then once it can do no more.
    ghost ended: { Self → Self → Type 0 };

    /// Does its part, after something was done, and reports its look at it. Whether another visit may do
    /// more, though nothing else is done.
    fn visit(
        &mut self,
        rt: &R,
        locks: &Locks<B>,
        first: &mut FirstSeats<B>,
        look: &Look,
    ) -> Result<bool, Ended>
        requires first { IsFirst B.table locks.now first.old }
        requires kept { (start : Self) × keeps start self.old locks.now first.old }
        ensures first { OnOk result (IsFirst B.table locks.now first.new) }
        ensures kept { (start : Self) → keeps start self.old locks.now first.old → OnOk result (keeps start self.new locks.now first.new) }
        ensures given { OnOk result (LeavesGiven first.old first.new) }
        ensures ended { (start : Self) → keeps start self.old locks.now first.old → OnErr result (ended start self.new) };
}
