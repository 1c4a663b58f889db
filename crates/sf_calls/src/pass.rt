//! A caller's right to call the object under a lock, and what it knows of the calls so far.
ghost use Rattle.std.specs.Prelude.{◌≡◌, ◌∷◌, true, IfOk, Contains};
ghost use Rattle.sf_calls.specs.Calling.{Made, Waited, IfFaultNotYet, IfFaultNoMemory};
ghost use Rattle.sf_calls.specs.Histories.{Begins, calls_by};
ghost use Rattle.sf_calls.specs.Passes.{giving, given, met, HasMark, Fits};

use crate::fault::CallFault;
use crate::lock::CallLock;
use crate::object::{Object, Outcome};
use crate::steps::PassSeat;
use std::marker::Model;
use std::sync::Wait;

/// One caller's right to call the object under a lock. Contracts see what the caller knows: its
/// number, the history as it knows it, how many turns it had, and of the first pass also which
/// passes it gave and took in.
#[derive(Drop)]
pub struct Pass<O: Object> {
    pub(crate) seat: PassSeat<O>,
    pub(crate) by: u32,
}

impl<O: Object> Model for Pass<O> {
    ghost use Rattle.std.specs.Prelude.{◌≡◌, [], false, None};
    ghost use Rattle.sf_calls.specs.Views.{PassView, pass_view};

    ghost Value = { PassView O.PlainCall O.PlainReply O.Mark };

    ghost view = { λ p. pass_view p.seat.table_id p.seat.me.0 };

    ghost invariant = { λ p. (p.seat.me.0.live ≡ 1) × (p.seat.me.0.by ≡ p.by) × (p.seat.me.0.ticket ≡ None)
        × (p.seat.me.0.inside ≡ false) × (p.seat.me.1 ≡ []) };
}

impl<O: Object> Pass<O> {
    /// A pass for another caller, which knows the history that this one knows. This is the first
    /// pass, and `by` is neither its own number nor one that it gave.
    pub fn split(&mut self, lock: &CallLock<O>, by: u32) -> Pass<O>
        requires own { self.old.table ≡ lock.now }
        requires first { self.old.is_first ≡ true }
        requires fresh { Contains (self.old.by ∷ self.old.gave) by → ⊥ }
        ensures kept { self.new ≡ giving by self.old }
        ensures given { result ≡ given by self.old }
    {
        let seat = lock.give(&mut self.seat, by);
        Pass { seat, by }
    }

    /// Takes another pass in: this one, the first, then knows the longer of both histories, which
    /// begins with the other, and which has no calls of either number but those that it knew of
    /// its own.
    pub fn meet(&mut self, lock: &CallLock<O>, note: Pass<O>)
        requires own { self.old.table ≡ lock.now }
        requires theirs { note.table ≡ lock.now }
        requires first { self.old.is_first ≡ true }
        ensures both { self.new ≡ met self.old note }
        ensures begins { Begins self.old.seen self.new.seen }
        ensures own_calls { calls_by self.old.by self.new.seen ≡ calls_by self.old.by self.old.seen }
        ensures their_begins { Begins note.seen self.new.seen }
        ensures their_calls { calls_by note.by self.new.seen ≡ calls_by note.by note.seen }
    {
        let Pass { seat, by: _ } = note;
        lock.meet(&mut self.seat, seat);
    }

    /// Waits for its turn under the lock, and applies the call. The reply, after which the call is
    /// the newest in the history that this pass knows. `NotYet` where the object answered so in
    /// this turn: the pass then knows the history that it found. `NoMemory` is out of memory, and
    /// leaves the pass and the object as they were. Either fault hands the call back and leaves
    /// no entry in the history. Nothing of the pass changes but what it knows of the history and
    /// its number of turns.
    pub fn call<W: Wait>(
        &mut self,
        lock: &CallLock<O>,
        rt: &W,
        call: O::Call,
    ) -> Result<O::Reply, CallFault<O::Call>>
        requires own { self.old.table ≡ lock.now }
        requires fits { Fits O.call_fits self.old call }
        ensures same { self.new ≡ record self.old { seen = self.new.seen; turns = self.new.turns } }
        ensures done { IfOk result (λ reply. (m : O.Mark) → HasMark self.old m
            → Made O.answers m self.old (O.plain_call call) (O.plain_reply reply) self.new × O.reply_fits m reply) }
        ensures not_yet { IfFaultNotYet result (λ back. (back ≡ call)
            × ((m : O.Mark) → HasMark self.old m → Waited O.answers m self.old (O.plain_call call) self.new)) }
        ensures no_memory { IfFaultNoMemory result (λ back. (back ≡ call) × (self.new ≡ self.old)) }
    {
        let _guard = lock.mutex.lock(rt);
        let ticket = lock.draw(rt, &mut self.seat);
        let mut object = lock.enter(rt, &mut self.seat, ticket);
        match object.apply(self.by, call) {
            Outcome::Done(reply) => {
                lock.pass_on(&mut self.seat, object);
                Ok(reply)
            }
            Outcome::NotYet(call) => {
                lock.pass_on(&mut self.seat, object);
                Err(CallFault::NotYet(call))
            }
            Outcome::NoMemory(call) => {
                lock.give_up(&mut self.seat, object);
                Err(CallFault::NoMemory(call))
            }
        }
    }
}
