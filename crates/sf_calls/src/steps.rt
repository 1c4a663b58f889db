//! The steps of a call under the lock, each over a caller's seat.
ghost use Rattle.std.specs.Prelude.{◌≡◌, ◌≢◌, List, ℕ, ◌+◌, true, false, [], ◌∷◌, ◌++◌, Some, None, IfSome, Contains};
ghost use Rattle.sf_calls.specs.declared.object.Entry.{Entry};
ghost use Rattle.sf_calls.specs.Histories.{IsLegal, Begins, calls_by};
ghost use Rattle.sf_calls.specs.inner.Rule.{giving, given, met, passed_on};

use crate::lock::{CallLock, held};
use crate::object::Object;
use crate::protocol::{
    DrawTicket, GiveUp, Knows, LoadServing, NameCaller, PassOn, Recall, SplitOff, TakeIn,
};
use atomic_table::Seat;
use std::sync::Wait;

/// A caller's seat at the lock.
pub(crate) type PassSeat<O> = Seat<
    Option<O>,
    Knows<<O as Object>::PlainCall, <O as Object>::PlainReply, <O as Object>::Mark>,
>;

impl<O: Object> CallLock<O> {
    /// Draws a ticket. Callers have the mutex, so the first try draws one.
    pub(crate) fn draw<W: Wait>(&self, rt: &W, seat: &mut PassSeat<O>) -> u64
        requires own { seat.old.table_id ≡ self.now }
        requires idle { (seat.old.me.0.ticket ≡ None) × (seat.old.me.0.inside ≡ false) }
        ensures same { (seat.new.table_id ≡ seat.old.table_id) × (seat.new.id ≡ seat.old.id) }
        ensures drawn { seat.new.me ≡ (record seat.old.me.0 { ticket = Some result }, seat.old.me.1) }
    {
        if let Some(ticket) = self.try_draw(seat) {
            return ticket;
        }
        for _ in rt.forever() {
            if let Some(ticket) = self.try_draw(seat) {
                return ticket;
            }
        }
        unreachable!()
    }

    /// Draws a ticket where nobody else draws one meanwhile. An addition could wrap, so it is an
    /// exchange where the word is as loaded.
    fn try_draw(&self, seat: &mut PassSeat<O>) -> Option<u64>
        requires own { seat.old.table_id ≡ self.now }
        requires idle { (seat.old.me.0.ticket ≡ None) × (seat.old.me.0.inside ≡ false) }
        ensures same { (seat.new.table_id ≡ seat.old.table_id) × (seat.new.id ≡ seat.old.id) }
        ensures drawn { IfSome result (λ ticket. seat.new.me ≡ (record seat.old.me.0 { ticket = Some ticket }, seat.old.me.1)) }
        ensures none { result ≡ None → seat.new.me ≡ seat.old.me }
    {
        let next = self.table.shared.peek(0);
        if next < u64::MAX
            && self
                .table
                .shared
                .compare_exchange::<DrawTicket>(seat, 0, next, next + 1)
                == next
        {
            return Some(next);
        }
        None
    }

    /// Takes the object once the ticket is served. Callers have the mutex, so the first try finds it
    /// served.
    pub(crate) fn enter<W: Wait>(&self, rt: &W, seat: &mut PassSeat<O>, ticket: u64) -> O
        requires own { seat.old.table_id ≡ self.now }
        requires drawn { (seat.old.me.0.ticket ≡ Some ticket) × (seat.old.me.0.inside ≡ false) × (seat.old.me.0.live ≡ 1) × (seat.old.me.1 ≡ []) }
        ensures same { (seat.new.table_id ≡ seat.old.table_id) × (seat.new.id ≡ seat.old.id) }
        ensures entered { seat.new.me ≡ (record seat.old.me.0 { inside = true; found = O.history result }, (0, None) ∷ []) }
        ensures legal { IsLegal (O.answers (O.mark result)) (O.history result) }
        ensures begins { Begins seat.old.me.0.seen (O.history result) }
        ensures own_calls { calls_by seat.old.me.0.by (O.history result) ≡ calls_by seat.old.me.0.by seat.old.me.0.seen }
        ensures marked { seat.old.me.0.mark ≡ Some (O.mark result) }
    {
        if let Some(object) = self.try_enter(seat, ticket) {
            return object;
        }
        for _ in rt.forever() {
            if let Some(object) = self.try_enter(seat, ticket) {
                return object;
            }
        }
        unreachable!()
    }

    /// Takes the object where the ticket is served.
    fn try_enter(&self, seat: &mut PassSeat<O>, ticket: u64) -> Option<O>
        requires own { seat.old.table_id ≡ self.now }
        requires drawn { (seat.old.me.0.ticket ≡ Some ticket) × (seat.old.me.0.inside ≡ false) × (seat.old.me.0.live ≡ 1) × (seat.old.me.1 ≡ []) }
        ensures same { (seat.new.table_id ≡ seat.old.table_id) × (seat.new.id ≡ seat.old.id) }
        ensures entered { IfSome result (λ object. seat.new.me ≡ (record seat.old.me.0 { inside = true; found = O.history object }, (0, None) ∷ [])) }
        ensures legal { IfSome result (λ object. IsLegal (O.answers (O.mark object)) (O.history object)) }
        ensures begins { IfSome result (λ object. Begins seat.old.me.0.seen (O.history object)) }
        ensures own_calls { IfSome result (λ object. calls_by seat.old.me.0.by (O.history object) ≡ calls_by seat.old.me.0.by seat.old.me.0.seen) }
        ensures marked { IfSome result (λ object. seat.old.me.0.mark ≡ Some (O.mark object)) }
        ensures none { result ≡ None → seat.new.me ≡ seat.old.me }
    {
        if self.table.shared.load::<LoadServing>(seat, 1) == ticket {
            return Some(held(self.table.shared.exchange(seat, 0, None)));
        }
        None
    }

    /// The object comes home, and the next ticket is served.
    pub(crate) fn pass_on(&self, seat: &mut PassSeat<O>, object: O)
        requires own { seat.old.table_id ≡ self.now }
        requires held { (seat.old.me.1 ≡ (0, None) ∷ []) × (seat.old.me.0.inside ≡ true) × (seat.old.me.0.live ≡ 1) }
        requires marked { seat.old.me.0.mark ≡ Some (O.mark object) }
        requires legal { IsLegal (O.answers (O.mark object)) (O.history object) }
        requires grown { (new : List (Entry O.PlainCall O.PlainReply))
            × (O.history object ≡ new ++ seat.old.me.0.found)
            × ((b : ℕ) → b ≢ seat.old.me.0.by → calls_by b new ≡ []) }
        ensures { (seat.new.table_id ≡ seat.old.table_id) × (seat.new.me ≡ (passed_on (O.history object) seat.old.me.0, [])) }
    {
        no_object(self.table.shared.exchange(seat, 0, Some(object)));
        self.table.shared.fetch_add::<PassOn>(seat, 1, 1);
    }

    /// The same for an object that is unchanged, and the pass has had no turn.
    pub(crate) fn give_up(&self, seat: &mut PassSeat<O>, object: O)
        requires own { seat.old.table_id ≡ self.now }
        requires held { (seat.old.me.1 ≡ (0, None) ∷ []) × (seat.old.me.0.inside ≡ true) × (seat.old.me.0.live ≡ 1) }
        requires marked { seat.old.me.0.mark ≡ Some (O.mark object) }
        requires legal { IsLegal (O.answers (O.mark object)) (O.history object) }
        requires unchanged { O.history object ≡ seat.old.me.0.found }
        ensures { (seat.new.table_id ≡ seat.old.table_id)
            × (seat.new.me ≡ (
              record seat.old.me.0 {
                ticket = None;
                inside = false;
                found = seat.old.me.0.seen;
              },
              [],
            )) }
    {
        no_object(self.table.shared.exchange(seat, 0, Some(object)));
        self.table.shared.fetch_add::<GiveUp>(seat, 1, 1);
    }

    /// A seat for the caller with this number, split off the first pass's.
    pub(crate) fn give(&self, seat: &mut PassSeat<O>, by: u32) -> PassSeat<O>
        requires own { seat.old.table_id ≡ self.now }
        requires first { seat.old.me.0.is_first ≡ true }
        requires fresh { Contains (seat.old.me.0.by ∷ seat.old.me.0.gave) by → ⊥ }
        ensures same { (seat.new.table_id ≡ seat.old.table_id) × (seat.new.me ≡ (giving (record seat.old.me.0 { asked = by }), seat.old.me.1)) }
        ensures given { (result.table_id ≡ self.now) × (result.me ≡ (given (record seat.old.me.0 { asked = by }), [])) }
    {
        self.table.shared.swap::<NameCaller>(seat, 2, by as u64);
        self.table.shared.split_seat::<SplitOff>(seat)
    }

    /// Takes another pass's seat in.
    pub(crate) fn meet(&self, seat: &mut PassSeat<O>, other: PassSeat<O>)
        requires own { (seat.old.table_id ≡ self.now) × (other.table_id ≡ self.now) }
        requires first { (seat.old.me.0.is_first ≡ true) × (seat.old.me.0.inside ≡ false) }
        requires other { (other.me.0.live ≡ 1) × (other.me.0.inside ≡ false) × (other.me.1 ≡ []) }
        ensures same { (seat.new.table_id ≡ seat.old.table_id) × (seat.new.me ≡ (met seat.old.me.0 other.me.0, seat.old.me.1)) }
        ensures own_calls { Begins seat.old.me.0.seen seat.new.me.0.seen
            × (calls_by seat.old.me.0.by seat.new.me.0.seen ≡ calls_by seat.old.me.0.by seat.old.me.0.seen) }
        ensures their_calls { Begins other.me.0.seen seat.new.me.0.seen × (calls_by other.me.0.by seat.new.me.0.seen ≡ calls_by other.me.0.by other.me.0.seen) }
    {
        self.table.shared.join_seat::<TakeIn>(seat, other);
        self.table.shared.load::<Recall>(seat, 0);
    }
}

/// Lets go what an exchange took out of a slot that was empty.
fn no_object<O>(slot: Option<O>)
    requires { slot ≡ None }
{
    match slot {
        Some(_o) => unreachable!(),
        None => {}
    }
}
