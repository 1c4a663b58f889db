//! The compositor of a live run, which the actors' threads visit: it makes a vsync at each visit,
//! and keeps the one whose records are still to be written.
ghost use denote.Param.Send.{IsSync};
ghost use Rattle.std.specs.Prelude.{◌<◌, IfSome, OnOk};
ghost use Rattle.sf_live_threads.specs.sf_live_seats.First.{IsFirst};
ghost use Rattle.sf_live_threads.specs.Visits.{LeavesGiven};
ghost use Rattle.sf_live_compositor.specs.Keeping.{HasEnded, Keeps};

use crate::decider::Decider;
use crate::vsync::MadeVsync;
use sf_live_threads::{Ended, FirstSeats, Lease, Locks, Look, ReadLease, Sink, TableName, Visit};
use sf_play_write::{
    Engine, RunFault, Screens, Shows, VsyncReport, Workers, is_worth, show_vsync, vsync_views,
};
use std::alloc::Global;
use std::sync::Wait;
use std::thread::Threads;

/// How many vsyncs are made at most while actors run: what is left is done in the rounds behind.
const MOST_VSYNCS: u32 = 1 << 31;

/// The compositor of a run whose actors are threads: whenever something was done it makes a vsync, and
/// then composes what it shows and writes its records. What is worth a thread of its own is composed
/// beside the next vsync, which it makes at once.
#[derive(Drop)]
pub struct Compositor<'a, K, B: TableName> {
    pub alloc: Global,
    /// How many compose a frame, 1 to 16.
    pub workers: Workers,
    /// Between two vsyncs, in nanoseconds, at most a second.
    pub period: u64,
    /// What its vsyncs show.
    pub shows: Shows,
    pub sink: &'a mut K,
    pub screens: Screens,
    /// What the last vsync did, if there was one: its records are still to be written.
    pub due: Option<VsyncReport>,
    pub decider: Decider<B>,
    /// How many vsyncs there were.
    pub vsyncs: u32,
    /// Why it makes no more.
    pub fault: Option<RunFault>,
}

impl<'a, R: Threads + Wait + Sync, K: Sink, B: TableName> Visit<R, B> for Compositor<'a, K, B> {
    ghost keeps = { λ start c locks first. IsSync R.row × Keeps K.taken K.faults ⟦<ReadLease<B> as Lease>⟧ B.table start c locks first };

    ghost ended = { HasEnded K.taken K.faults ⟦<ReadLease<B> as Lease>⟧ B.table };

    fn visit(
        &mut self,
        rt: &R,
        locks: &Locks<B>,
        first: &mut FirstSeats<B>,
        look: &Look,
    ) -> Result<bool, Ended> {
        if self.vsyncs >= MOST_VSYNCS {
            return Ok(false);
        }
        let Ok(goes_on) = self.make_next(rt, locks, first, look) else {
            return Err(Ended);
        };
        if self.is_worth_a_thread() {
            return Ok(true);
        }
        match self.settle(rt) {
            Ok(()) => Ok(goes_on),
            Err(Ended) => Err(Ended),
        }
    }
}

impl<'a, K: Sink, B: TableName> Compositor<'a, K, B> {
    ghost use Rattle.sf_play_write.specs.sf_play.Playing.{expected_by};
    ghost use Rattle.sf_play_write.specs.sf_play_report.Stages.{IsStage};
    ghost use Rattle.sf_live_compositor.specs.Keeping.{EndsMade, EndsSettled, Keeps, StaysMade, StaysSettled};
    ghost use Rattle.sf_live_threads.specs.sf_live_seats.declared.first.FirstSeats.{FirstSeats as FirstIn};
    ghost use Rattle.sf_live_threads.specs.sf_live_seats.declared.locks.Locks.{Locks as LocksIn};

    /// Makes the next vsync, whose records are due then, and those of the last one not any more; then
    /// threads are notified of it. Whether another one may do more, though nothing else is done.
    fn make_next<R: Threads + Wait + Sync>(
        &mut self,
        rt: &R,
        locks: &Locks<B>,
        first: &mut FirstSeats<B>,
        look: &Look,
    ) -> Result<bool, Ended>
        requires first { IsFirst B.table locks.now first.old }
        requires few { self.old.vsyncs < MOST_VSYNCS }
        requires kept { (start : _) × Keeps K.taken K.faults ⟦<ReadLease<B> as Lease>⟧ B.table start self.old locks.now first.old }
        ensures first { OnOk result (IsFirst B.table locks.now first.new) }
        ensures kept { StaysMade K.taken K.faults ⟦<ReadLease<B> as Lease>⟧ B.table self.old self.new result locks.now first.old first.new }
        ensures given { OnOk result (LeavesGiven first.old first.new) }
        ensures ended { EndsMade K.taken K.faults ⟦<ReadLease<B> as Lease>⟧ B.table self.old self.new result locks.now first.old }
    {
        match self.show_next(rt, locks, &mut first.seats, look) {
            Ok(made) => {
                let MadeVsync {
                    report,
                    goes_on,
                    releases,
                } = made;
                self.due = Some(report);
                look.tell_read(rt, releases);
                Ok(goes_on)
            }
            Err(fault) => {
                self.fault = Some(fault);
                Err(Ended)
            }
        }
    }

    /// Whether composing what the last vsync shows is worth a thread beside the next vsync.
    fn is_worth_a_thread(&self) -> bool
        requires stage { IfSome self.now.due (λ _. IsStage expected_by self.now.shows.plan self.now.decider.handler) }
    {
        let Some(report) = &self.due else {
            return false;
        };
        match vsync_views(self.alloc, &self.shows.plan, &self.decider.handler, report) {
            Ok(views) => is_worth(&self.screens, &views),
            Err(_) => false,
        }
    }

    /// Composes what the last vsync shows, and writes its records, if they are due.
    pub fn settle<R: Threads + Sync>(&mut self, rt: &R) -> Result<(), Ended>
        requires kept { (start : _) × (locks : LocksIn B) × (first : FirstIn B) × Keeps K.taken K.faults ⟦<ReadLease<B> as Lease>⟧ B.table start self.old locks first }
        ensures kept { StaysSettled K.taken K.faults ⟦<ReadLease<B> as Lease>⟧ B.table self.old self.new result }
        ensures ended { EndsSettled K.taken K.faults ⟦<ReadLease<B> as Lease>⟧ B.table self.old self.new result }
    {
        let Some(report) = self.due.take() else {
            return Ok(());
        };
        let engine = Engine {
            rt,
            alloc: self.alloc,
            workers: self.workers,
        };
        match show_vsync(
            &engine,
            self.sink,
            &self.shows,
            &mut self.screens,
            &self.decider.handler,
            report,
        ) {
            Ok(()) => Ok(()),
            Err(fault) => {
                self.fault = Some(fault);
                Err(Ended)
            }
        }
    }
}
