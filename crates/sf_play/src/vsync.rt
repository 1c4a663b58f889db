//! A vsync, for a play and for a live run: a compositor looks at the timelines, takes what arrived,
//! decides, and gives back the frames that go.
ghost use Rattle.std.specs.Prelude.{◌≡◌, All, IfOk, OnOk};
ghost use Rattle.sf_play.specs.VsyncOver.{InTurn, MakesOver, MayGiveAll, TakesRising};

use crate::desk::CompositorDesk;
use crate::outcome::VsyncOutcome;
use sf_base::NoMemory;
use sf_play_report::{Committed, Handler, Lease, ReadLease, Release, TableName, VsyncReport};

/// Gives frames back to their queues, in order, for the vsync of this number.
fn give_all_back<W, D: CompositorDesk<W, B, Release<ReadLease<B>>>, B: TableName>(
    desk: &mut D,
    with: &W,
    number: u32,
    releases: Vec<Release<ReadLease<B>>>,
) -> Result<(), NoMemory>
    requires stands { D.stands with.now desk.old }
    requires may { All (D.may_give desk.old) releases.items }
    ensures stands { D.stands with.now desk.new }
    ensures gives { OnOk result (InTurn (D.gives with.now number) releases.items desk.old desk.new) }
{
    for release in releases {
        desk.give_back(with, number, release)?;
    }
    Ok(())
}

/// Makes a vsync of a number, whose frame is expected at a present time, in nanoseconds.
pub fn vsync_over<W, D: CompositorDesk<W, B, Release<ReadLease<B>>>, B: TableName>(
    desk: &mut D,
    with: &W,
    handler: &mut Handler<ReadLease<B>>,
    number: u32,
    expected: u64,
) -> Result<VsyncOutcome, NoMemory>
    requires stands { D.stands with.now desk.old }
    requires rising { TakesRising D.CompositorDesk with.now desk.old handler.old }
    requires may { MayGiveAll D.CompositorDesk with.now ⟦<ReadLease<B> as Lease>⟧ expected desk.old handler.old }
    ensures stands { D.stands with.now desk.new }
    ensures makes { IfOk result (λ made. MakesOver D.CompositorDesk with.now ⟦<ReadLease<B> as Lease>⟧ expected number
        desk.old handler.old made handler.new desk.new) }
    ensures lent { handler.new.lent ≡ handler.old.lent }
{
    let seen = desk.see(with);
    let (taken, committed) = desk.decide(with, handler, &seen, expected)?;
    let Committed {
        commits,
        releases,
        held,
    } = committed;
    let released = releases.as_slice().len();
    give_all_back(desk, with, number, releases.into_vec())?;
    let report = VsyncReport {
        number,
        expected,
        seen,
        commits,
    };
    Ok(VsyncOutcome {
        report,
        held,
        taken,
        released,
    })
}
