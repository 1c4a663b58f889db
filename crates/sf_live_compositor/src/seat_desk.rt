//! The compositor's seats among threads as what it makes its vsyncs over.
use sf_base::{NoMemory, Seen};
use sf_live_threads::{
    Committed, Handler, Locks, QCall, ReadLease, Release, Seats, TableName, settle,
};
use sf_play_write::CompositorDesk;
use std::sync::Wait;

/// What the calls of a compositor take besides its seats.
#[derive(Drop)]
pub(crate) struct Sharing<'a, R, B: TableName> {
    pub(crate) rt: &'a R,
    pub(crate) locks: &'a Locks<B>,
}

impl<'a, R: Wait, B: TableName> CompositorDesk<Sharing<'a, R, B>, B, Release<ReadLease<B>>>
    for Seats<B> {
    ghost use Rattle.std.specs.Prelude.{OnOk};
    ghost use Rattle.sf_live_compositor.specs.SeatDesk.{AreFirst, GivesBack, Looks, Observes, TakesIn};

    ghost stands = { λ with. AreFirst B.table with.locks.now };

    ghost eye = { λ seats. seats.turns };

    ghost sees = { λ with. Looks B.table with.locks.now };

    ghost takes = { λ with. TakesIn B.table with.locks.now };

    ghost decides = { Observes };

    ghost gives = { λ with. GivesBack B.table with.locks.now };

    ghost may_give = { λ seats release. Unit {0} };

    fn see(&mut self, with: &Sharing<'a, R, B>) -> Seen {
        self.see(with.locks)
    }

    fn decide(
        &mut self,
        with: &Sharing<'a, R, B>,
        handler: &mut Handler<ReadLease<B>>,
        seen: &Seen,
        expected: u64,
    ) -> Result<(usize, Committed<ReadLease<B>>), NoMemory> {
        let arrived = self.take(with.locks, with.rt)?;
        let taken = arrived.len();
        let committed = self.vsync(handler, arrived, seen, expected)?;
        Ok((taken, committed))
    }

    /// Only running out of memory stops it, or a frame of no queue that is shared, which none of these
    /// queues gave.
    fn give_back(
        &mut self,
        with: &Sharing<'a, R, B>,
        number: u32,
        frame: Release<ReadLease<B>>,
    ) -> Result<(), NoMemory>
        requires stands { AreFirst B.table with.now.locks.now self.old }
        ensures stands { AreFirst B.table with.now.locks.now self.new }
        ensures gives { OnOk result (GivesBack B.table with.now.locks.now number frame self.old self.new) }
    {
        let Release {
            queue,
            frame: _,
            fence,
            lease,
        } = frame;
        if !with.locks.has_queue(queue) {
            drop(lease);
            return Err(NoMemory);
        }
        let call = QCall::Release(lease, fence);
        settle(self.call(with.locks, with.rt, queue, number, call))
    }
}
