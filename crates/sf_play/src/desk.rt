//! What a compositor makes its vsyncs over, as a trait: the actors of a play in one thread, or the
//! compositor's seats among threads.
ghost use Rattle.std.specs.Prelude.{◌≡◌, ℕ, List, IfOk, OnOk};
ghost use Rattle.sf_base.specs.declared.fences.Seen.{Seen as SeenValue};
ghost use Rattle.sf_play_report.specs.sf_surface.Tokens.{ReadLeaseOf};
ghost use Rattle.sf_play_report.specs.sf_token.Pending.{Arrival};
ghost use Rattle.sf_play_report.specs.sf_turns.Views.{SeatView};
ghost use Rattle.sf_play.specs.Deciding.{DecidesBy, NextRises};

use sf_base::{NoMemory, Seen};
use sf_play_report::{Committed, Handler, Lease, ReadLease, TableName};

/// What a compositor makes its vsyncs over. `W` is what its calls take besides, and `F` a frame that goes
/// back to its queue.
pub trait CompositorDesk<W, B: TableName, F> {
    /// What each call needs, and leaves as it is.
    ghost stands: { W → Self → Type 0 };

    /// Its seat at the turns.
    ghost eye: { Self → SeatView };

    /// What it is after a look that showed this, after a take that gave this, after a decision, and
    /// after a frame went back for the vsync of this number.
    ghost sees: { W → Self → SeenValue → Self → Type 0 };

    ghost takes: { W → Self → List (Arrival ReadLeaseOf) → Self → Type 0 };

    ghost decides: { Self → Self → Type 0 };

    ghost gives: { W → ℕ → F → Self → Self → Type 0 };

    /// When a frame may go back.
    ghost may_give: { Self → F → Type 0 };

    /// Looks at all timelines.
    fn see(&mut self, with: &W) -> Seen
        requires stands { stands with.now self.old }
        ensures stands { stands with.now self.new }
        ensures sees { sees with.now self.old result self.new };

    /// Takes the transactions that arrived, and makes a vsync of a handler of them, whose eye is the seat
    /// at the turns: with what it saw of the timelines, and when its frame is expected, in nanoseconds.
    /// Returns how many it took, too.
    fn decide(
        &mut self,
        with: &W,
        handler: &mut Handler<ReadLease<B>>,
        seen: &Seen,
        expected: u64,
    ) -> Result<(usize, Committed<ReadLease<B>>), NoMemory>
        requires stands { stands with.now self.old }
        requires rising { NextRises (takes with.now) self.old handler.old }
        ensures stands { stands with.now self.new }
        ensures decides { IfOk result (λ made. DecidesBy (takes with.now) eye decides ⟦<ReadLease<B> as Lease>⟧ expected
            self.old handler.old seen.now made.1 handler.new self.new) }
        ensures lent { handler.new.lent ≡ handler.old.lent };

    /// Gives a frame back to its queue, for the vsync of this number. A frame that the queue refuses is
    /// dropped.
    fn give_back(&mut self, with: &W, number: u32, frame: F) -> Result<(), NoMemory>
        requires stands { stands with.now self.old }
        requires may { may_give self.old frame }
        ensures stands { stands with.now self.new }
        ensures gives { OnOk result (gives with.now number frame self.old self.new) }
        ensures others { (other : F) → may_give self.old other → may_give self.new other };
}
