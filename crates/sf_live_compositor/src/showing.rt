//! The next vsync, and what the last one shows: where its records are due, its images are composed
//! beside the next vsync, and then its records are written.
ghost use Rattle.std.specs.Prelude.{◌≡◌, IfSome, IsErrOf, OnOk, Some};
ghost use Rattle.sf_play_write.specs.sf_play.Playing.{expected_by};
ghost use Rattle.sf_play_write.specs.sf_play_report.Stages.{IsStage};
ghost use Rattle.sf_play_write.specs.Vsyncs.{KeepsShown};
ghost use Rattle.sf_live_compositor.specs.Keeping.{IsSame, ShowingEnded, WritesIn, sitting_in};
ghost use Rattle.sf_live_compositor.specs.Sitting.{MadeOne, MayShowNext, MaySit};

use crate::compositor::Compositor;
use crate::vsync::MadeVsync;
use sf_live_threads::{Lease, Locks, Look, ReadLease, Seats, Sink, TableName};
use sf_play_write::{RunFault, VsyncReport, vsync_views, write_vsync};
use std::sync::Wait;
use std::thread::Threads;

impl<'a, K: Sink, B: TableName> Compositor<'a, K, B> {
    /// Makes the next vsync while what the last one shows is composed; then the last one's records are
    /// written.
    fn show_behind<R: Threads + Wait + Sync>(
        &mut self,
        rt: &R,
        locks: &Locks<B>,
        seats: &mut Seats<B>,
        look: &Look,
        last: VsyncReport,
    ) -> Result<MadeVsync, RunFault>
        requires next { MayShowNext B.table locks.now self.old.period self.old.shows (sitting_in seats.old self.old) }
        requires stage { IsStage expected_by self.old.shows.plan self.old.decider.handler }
        ensures same { IsSame self.old self.new }
        ensures makes { MadeOne ⟦<ReadLease<B> as Lease>⟧ B.table locks.now self.old.period (sitting_in seats.old self.old) (sitting_in seats.new self.new) result }
        ensures stage { OnOk result (IsStage expected_by self.old.shows.plan self.new.decider.handler) }
        ensures may { OnOk result (MaySit self.old.shows.plan (sitting_in seats.new self.new)) }
        ensures written { OnOk result (WritesIn K.taken (Some last) self.old self.new) }
        ensures ended { ShowingEnded K.taken K.faults (Some last) self.old self.new result }
    {
        let views = match vsync_views(self.alloc, &self.shows.plan, &self.decider.handler, &last) {
            Ok(views) => views,
            Err(_) => return Err(RunFault::NoMemory),
        };
        let (composed, made) = self.make_behind(rt, locks, seats, look, views);
        let Ok(images) = composed else {
            return Err(RunFault::NoMemory);
        };
        match write_vsync(
            self.alloc,
            self.sink,
            &self.shows.timelines,
            &mut self.screens,
            last,
            images,
        ) {
            Ok(()) => {}
            Err(fault) => return Err(fault),
        }
        match made {
            Ok(made) => Ok(made),
            Err(_) => Err(RunFault::NoMemory),
        }
    }

    /// Makes the first vsync: nothing is to be composed.
    fn show_first<R: Threads + Wait + Sync>(
        &mut self,
        rt: &R,
        locks: &Locks<B>,
        seats: &mut Seats<B>,
        look: &Look,
    ) -> Result<MadeVsync, RunFault>
        requires next { MayShowNext B.table locks.now self.old.period self.old.shows (sitting_in seats.old self.old) }
        ensures same { IsSame self.old self.new }
        ensures sink { self.new.sink ≡ self.old.sink }
        ensures makes { MadeOne ⟦<ReadLease<B> as Lease>⟧ B.table locks.now self.old.period (sitting_in seats.old self.old) (sitting_in seats.new self.new) result }
        ensures stage { OnOk result (IsStage expected_by self.old.shows.plan self.new.decider.handler) }
        ensures may { OnOk result (MaySit self.old.shows.plan (sitting_in seats.new self.new)) }
        ensures shown { KeepsShown self.old.screens self.new.screens }
        ensures failed { IsErrOf result RunFault.WriteFault → ⊥ }
    {
        let none = Vec::new(self.alloc);
        let (_images, made) = self.make_behind(rt, locks, seats, look, none);
        match made {
            Ok(made) => Ok(made),
            Err(_) => Err(RunFault::NoMemory),
        }
    }

    /// Makes the next vsync, and composes what the last one shows and writes its records, where they are
    /// due. What the next one did, whose records are due then.
    pub(crate) fn show_next<R: Threads + Wait + Sync>(
        &mut self,
        rt: &R,
        locks: &Locks<B>,
        seats: &mut Seats<B>,
        look: &Look,
    ) -> Result<MadeVsync, RunFault>
        requires next { MayShowNext B.table locks.now self.old.period self.old.shows (sitting_in seats.old self.old) }
        requires stage { IfSome self.old.due (λ _. IsStage expected_by self.old.shows.plan self.old.decider.handler) }
        ensures same { IsSame self.old self.new }
        ensures makes { MadeOne ⟦<ReadLease<B> as Lease>⟧ B.table locks.now self.old.period (sitting_in seats.old self.old) (sitting_in seats.new self.new) result }
        ensures stage { OnOk result (IsStage expected_by self.old.shows.plan self.new.decider.handler) }
        ensures may { OnOk result (MaySit self.old.shows.plan (sitting_in seats.new self.new)) }
        ensures written { OnOk result (WritesIn K.taken self.old.due self.old self.new) }
        ensures ended { ShowingEnded K.taken K.faults self.old.due self.old self.new result }
    {
        match self.due.take() {
            None => self.show_first(rt, locks, seats, look),
            Some(last) => self.show_behind(rt, locks, seats, look, last),
        }
    }
}
