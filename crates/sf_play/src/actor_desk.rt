//! The actors of a play as what a compositor makes its vsyncs over.
use crate::desk::CompositorDesk;
use law_rights::ActorSet;
use sf_base::{NoMemory, Seen};
use sf_play_report::{Committed, Handler, ReadLease, Release, TableName};

impl<B: TableName> CompositorDesk<(), B, Release<ReadLease<B>>> for ActorSet<B> {
    ghost use Rattle.std.specs.Prelude.{OnOk};
    ghost use Rattle.sf_play_report.specs.sf_commit.Releases.{ReleaseOf};
    ghost use Rattle.sf_play_report.specs.sf_surface.Tokens.{ReadLeaseOf};
    ghost use Rattle.sf_play.specs.ActorDesk.{GivesBack, HasItsQueue, Looks, Observes, TakesIn};

    ghost stands = { λ with actor_set. Unit {0} };

    ghost eye = { λ actor_set. actor_set.desk.turns };

    ghost sees = { λ with. Looks B.table };

    ghost takes = { λ with. TakesIn B.table };

    ghost decides = { Observes B.table };

    ghost gives = { λ with. GivesBack B.table };

    ghost may_give = { HasItsQueue };

    fn see(&mut self, _with: &()) -> Seen {
        self.see()
    }

    fn decide(
        &mut self,
        _with: &(),
        handler: &mut Handler<ReadLease<B>>,
        seen: &Seen,
        expected: u64,
    ) -> Result<(usize, Committed<ReadLease<B>>), NoMemory> {
        let arrived = self.take()?;
        let taken = arrived.len();
        let committed = self.vsync(handler, arrived, seen, expected)?;
        Ok((taken, committed))
    }

    fn give_back(
        &mut self,
        _with: &(),
        number: u32,
        frame: Release<ReadLease<B>>,
    ) -> Result<(), NoMemory>
        requires may { HasItsQueue self.old frame }
        ensures gives { OnOk result (GivesBack B.table number frame self.old self.new) }
        ensures others { (other : ReleaseOf ReadLeaseOf) → HasItsQueue self.old other → HasItsQueue self.new other }
    {
        self.release(number, frame)
    }
}
