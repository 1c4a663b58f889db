//! A vsync of a live run, over the compositor's seats among threads.
ghost use Rattle.std.specs.Prelude.{◌≡◌, ◌+◌, ◌≤◌, OnOk};
ghost use Rattle.sf_live_threads.specs.sf_actor.Plain.{taken_in};
ghost use Rattle.sf_live_threads.specs.sf_live_seats.Seats.{AreSeats};
ghost use Rattle.sf_live_threads.specs.sf_calls_stamped.Stamps.{unstamped};
ghost use Rattle.sf_live_compositor.specs.Vsyncs.{sitting_at};
ghost use Rattle.sf_live_compositor.specs.Sitting.{MadeLent};

use crate::seat_desk::Sharing;
use sf_base::NoMemory;
use sf_live_threads::{Handler, Lease, Locks, ReadLease, Seats, TableName};
use sf_play_write::{VsyncOutcome, VsyncReport, is_time, vsync_over};
use std::sync::Wait;

/// How many transactions a take gives at most where they arrive through a queue.
const MOST_TAKEN: usize = 4_096;

/// What came of a vsync.
#[derive(Drop)]
pub(crate) struct MadeVsync {
    /// What it did.
    pub(crate) report: VsyncReport,
    /// Whether another one may do more with nothing else done: it committed something and something
    /// waits still, something waits for its time, or as much was taken as a take gives, so that more
    /// may wait.
    pub(crate) goes_on: bool,
    /// Whether frames went, so that reads of them may end once the pixels are given back.
    pub(crate) releases: bool,
}

/// Makes the next vsync, where so many were made before. The handler's pixels are lent; reads of frames
/// that go are kept until these come back.
pub(crate) fn make_vsync<R: Wait, B: TableName>(
    rt: &R,
    locks: &Locks<B>,
    seats: &mut Seats<B>,
    handler: &mut Handler<ReadLease<B>>,
    period: u64,
    before: u32,
) -> Result<MadeVsync, NoMemory>
    requires own { AreSeats B.table locks.now seats.old }
    requires first { seats.old.by ≡ 0 }
    requires known { handler.old.last ≤ taken_in (unstamped seats.old.arrivals.seen) }
    requires period { period ≤ 1000000000 }
    requires few { before ≤ 2147483648 }
    requires early { seats.old.last.step ≤ before }
    ensures makes { MadeLent ⟦<ReadLease<B> as Lease>⟧ B.table locks.now period
        (sitting_at handler.old seats.old before) (sitting_at handler.new seats.new (before + 1)) result }
    ensures known { OnOk result (handler.new.last ≤ taken_in (unstamped seats.new.arrivals.seen)) }
    ensures early { OnOk result (seats.new.last.step ≤ before + 1) }
    ensures lent { handler.new.lent ≡ handler.old.lent }
    ensures table { seats.new.turns.table ≡ seats.old.turns.table }
{
    let number = before + 1;
    let expected = u64::from(number) * period;
    let sharing = Sharing { rt, locks };
    let VsyncOutcome {
        report,
        held,
        taken,
        released,
    } = vsync_over(seats, &sharing, handler, number, expected)?;
    let goes_on = taken >= MOST_TAKEN
        || (report.has_commits() && !held.as_slice().is_empty())
        || held.as_slice().iter().any(|entry| is_time(entry));
    Ok(MadeVsync {
        report,
        goes_on,
        releases: released > 0,
    })
}
