//! A caller's pass at the lock of the arrivals, in a type of its own, so that its drop is proved
//! here alone.
use crate::arrivals::StampedArrivals;
use sf_calls::{CallLock, Pass};
use sf_turns::TableName;
use std::marker::Model;

/// A caller's pass at the lock of the arrivals. Contracts see the pass.
pub struct ArrivalsSeat<B: TableName> {
    pub(crate) pass: Pass<StampedArrivals<B>>,
}

impl<B: TableName> Model for ArrivalsSeat<B> {
    ghost use Rattle.sf_live_seats.specs.Arriving.{ArrivalsPass};

    ghost Value = { ArrivalsPass };

    ghost view = { λ seat. seat.pass };
}

impl<B: TableName> ArrivalsSeat<B> {
    ghost use Rattle.std.specs.Prelude.{◌≡◌, ◌∷◌, true, Contains};
    ghost use Rattle.sf_calls.specs.Histories.{Begins, calls_by};
    ghost use Rattle.sf_calls.specs.Passes.{given, giving, met};

    /// A seat with this pass.
    pub(crate) fn of(pass: Pass<StampedArrivals<B>>) -> ArrivalsSeat<B>
        ensures { result ≡ pass }
    {
        ArrivalsSeat { pass }
    }

    /// Its pass.
    pub(crate) fn into_pass(self) -> Pass<StampedArrivals<B>>
        ensures { result ≡ self }
    {
        let ArrivalsSeat { pass } = self;
        pass
    }

    /// A seat for another caller, as a pass gives one.
    pub(crate) fn split(&mut self, lock: &CallLock<StampedArrivals<B>>, by: u32) -> ArrivalsSeat<B>
        requires own { self.old.table ≡ lock.now }
        requires first { self.old.is_first ≡ true }
        requires fresh { Contains (self.old.by ∷ self.old.gave) by → ⊥ }
        ensures kept { self.new ≡ giving by self.old }
        ensures given { result ≡ given by self.old }
    {
        ArrivalsSeat::of(self.pass.split(lock, by))
    }

    /// Takes another caller's seat in, as a pass does.
    pub(crate) fn meet(&mut self, lock: &CallLock<StampedArrivals<B>>, seat: ArrivalsSeat<B>)
        requires own { self.old.table ≡ lock.now }
        requires theirs { seat.table ≡ lock.now }
        requires first { self.old.is_first ≡ true }
        ensures both { self.new ≡ met self.old seat }
        ensures begins { Begins self.old.seen self.new.seen }
        ensures own_calls { calls_by self.old.by self.new.seen ≡ calls_by self.old.by self.old.seen }
    {
        self.pass.meet(lock, seat.into_pass());
    }
}

impl<B: TableName> Drop for ArrivalsSeat<B> {
    fn drop(self) {
        let ArrivalsSeat { pass: _ } = self;
    }
}
