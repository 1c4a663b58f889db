//! A caller's pass at the lock of one queue, in a type of its own, so that its drop is proved here
//! alone.
use crate::locks::QueueLock;
use sf_actor::QueueObject;
use sf_calls::Pass;
use sf_calls_stamped::Stamped;
use sf_turns::TableName;
use std::marker::Model;

/// A caller's pass at a queue's lock. Contracts see the pass.
pub struct QueueSeat<B: TableName> {
    pub(crate) pass: Pass<Stamped<QueueObject<B>>>,
}

impl<B: TableName> Model for QueueSeat<B> {
    ghost use Rattle.sf_live_seats.specs.Queues.{QueuePass};

    ghost Value = { QueuePass B };

    ghost view = { λ seat. seat.pass };
}

impl<B: TableName> QueueSeat<B> {
    ghost use Rattle.std.specs.Prelude.{◌≡◌, ◌∷◌, true, Contains};
    ghost use Rattle.sf_calls.specs.Histories.{Begins, calls_by};
    ghost use Rattle.sf_calls.specs.Passes.{given, giving, met};

    /// A seat with this pass.
    pub(crate) fn of(pass: Pass<Stamped<QueueObject<B>>>) -> QueueSeat<B>
        ensures { result ≡ pass }
    {
        QueueSeat { pass }
    }

    /// Its pass.
    pub(crate) fn into_pass(self) -> Pass<Stamped<QueueObject<B>>>
        ensures { result ≡ self }
    {
        let QueueSeat { pass } = self;
        pass
    }

    /// A seat for another caller, as a pass gives one.
    pub(crate) fn split(&mut self, lock: &QueueLock<B>, by: u32) -> QueueSeat<B>
        requires own { self.old.table ≡ lock.now.lock }
        requires first { self.old.is_first ≡ true }
        requires fresh { Contains (self.old.by ∷ self.old.gave) by → ⊥ }
        ensures kept { self.new ≡ giving by self.old }
        ensures given { result ≡ given by self.old }
    {
        QueueSeat::of(self.pass.split(&lock.lock, by))
    }

    /// Takes another caller's seat in, as a pass does.
    pub(crate) fn meet(&mut self, lock: &QueueLock<B>, seat: QueueSeat<B>)
        requires own { self.old.table ≡ lock.now.lock }
        requires theirs { seat.table ≡ lock.now.lock }
        requires first { self.old.is_first ≡ true }
        ensures both { self.new ≡ met self.old seat }
        ensures begins { Begins self.old.seen self.new.seen }
        ensures own_calls { calls_by self.old.by self.new.seen ≡ calls_by self.old.by self.old.seen }
    {
        self.pass.meet(&lock.lock, seat.into_pass());
    }
}

impl<B: TableName> Drop for QueueSeat<B> {
    fn drop(self) {
        let QueueSeat { pass: _ } = self;
    }
}
