//! The last turn of a buffer's chain: it may enter once all before it have left, or be handed on
//! first. Leases of `sf_surface` carry it.
ghost use Rattle.std.specs.Arc.{arc_value};
ghost use Rattle.std.specs.Prelude.{◌≡◌, ℕ, ◌<◌, ◌≤◌, ◌↔◌, false, [], Some, None, IfOk, IfErr, IsTrue, MatchResult};
ghost use Rattle.sf_turns.specs.Rule.{IsAside, token_away};
ghost use Rattle.sf_turns.specs.Tokens.{last_turn};
ghost use Rattle.sf_turns.specs.Views.{Observes, issued_with, heir_expecting, loaded_once, IsExactAlone};

use crate::inside::Inside;
use crate::owed::Owed;
use crate::parts::{Parts, first_parts};
use crate::seat::TurnSeat;
use crate::stamped::Stamped;
use crate::turn_table::TableSeat;
use sf_base::NoMemory;
use std::marker::Model;
use std::sync::Arc;

/// The last turn of a buffer's chain: the right to touch the pixels once, after all turns before
/// it have left. Where it is dropped after they have left, the pixels are dropped with it.
pub struct Turn<P: Stamped> {
    pub(crate) parts: Box<Parts<P>>,
    pub(crate) seat: TableSeat<P>,
}

impl<P: Stamped> Model for Turn<P> {
    ghost use Rattle.std.specs.Prelude.{[], None};
    ghost use Rattle.sf_turns.specs.declared.protocol.Stage.TheVariants.{Away};
    ghost use Rattle.sf_turns.specs.Tokens.{HasToken, last_turn};
    ghost use Rattle.sf_turns.specs.Views.{TurnView};

    ghost Value = { TurnView P.Stamp };

    ghost view = { λ s. last_turn s.seat.table_id s.parts.value };

    ghost invariant = { λ s. HasToken s.parts.value s.seat Away None [] };
}

impl<P: Stamped> Turn<P> {
    /// The number of its buffer, one of the table's.
    pub fn buffer(&self) -> u32
        ensures number { result ≡ self.now.buffer }
        ensures inside { result < self.now.table.slots }
    {
        self.parts.buffer
    }

    /// Its number in the chain of its buffer, from 0.
    pub fn number(&self) -> u64
        ensures { result ≡ self.now.number }
    {
        self.parts.number
    }

    /// The stamp that it will find.
    pub fn expects(&self) -> &P::Stamp
        ensures { result.now ≡ self.now.expects }
    {
        &self.parts.expects
    }

    /// Whether all turns before it have left, as one load through the seat shows it. Once it is
    /// true, `enter` through this seat succeeds. The turn counts this load, up to the greatest
    /// number, and keeps what it showed.
    pub fn ready(&mut self, seat: &mut TurnSeat<P>) -> bool
        requires { self.old.table ≡ seat.old.table }
        ensures observed { (n : ℕ) × Observes seat.old self.old.buffer n seat.new × (IsTrue result ↔ (self.old.number ≤ n)) }
        ensures counted { self.new ≡ loaded_once self.old result }
        ensures risen { self.old.loads ≤ self.new.loads }
        ensures exact { IsExactAlone seat.new }
    {
        let count = seat.load_leaves(self.parts.buffer);
        let ready = self.parts.number <= count;
        self.parts.loads = self.parts.loads.saturating_add(1);
        self.parts.shown = ready;
        ready
    }

    /// Enters, and takes the pixels, which have the stamp that was expected. The turn comes back
    /// exactly where the load of this call showed that fewer turns have left than its number; else it
    /// showed just as many.
    pub fn enter(self, seat: &mut TurnSeat<P>) -> Result<(Inside<P>, P), Turn<P>>
        requires { self.table ≡ seat.old.table }
        ensures observed { (n : ℕ) × Observes seat.old self.buffer n seat.new × MatchResult result (λ _. n ≡ self.number) (λ _. n < self.number) }
        ensures entered { IfOk result (λ r. (r.0 ≡ self) × (P.stamp_of r.1 ≡ self.expects)) }
        ensures back { IfErr result (λ t. t ≡ self) }
        ensures exact { IsExactAlone seat.new }
    {
        let (buffer, number) = (self.parts.buffer, self.parts.number);
        if seat.load_leaves(buffer) < number {
            return Err(self);
        }
        let note = seat.note();
        let Turn {
            parts,
            seat: mut own,
        } = self;
        let p = parts.table.enter(&mut own, note, buffer);
        Ok((Inside { parts, seat: own }, p))
    }

    /// Issues the next turn, which expects what this one promises to leave. This one is then owed.
    /// Out of memory hands both back.
    pub fn issue(
        self,
        leaves: P::Stamp,
    ) -> Result<(Owed<P>, Turn<P>), (NoMemory, Turn<P>, P::Stamp)>
        ensures owed { IfOk result (λ r. r.0 ≡ issued_with self leaves) }
        ensures heir { IfOk result (λ r. r.1 ≡ heir_expecting self leaves) }
        ensures back { IfErr result (λ e. (e.1 ≡ self) × (e.2 ≡ leaves)) }
    {
        if self.parts.number == u64::MAX {
            return Err((NoMemory, self, leaves));
        }
        let Ok(expects) = P::copy_stamp(self.parts.table.alloc, &leaves) else {
            return Err((NoMemory, self, leaves));
        };
        let Ok(again) = Arc::try_clone(&self.parts.table) else {
            return Err((NoMemory, self, leaves));
        };
        let next = first_parts(again, self.parts.buffer, self.parts.number + 1, expects);
        let Ok(next) = Box::new(self.parts.table.alloc, next) else {
            return Err((NoMemory, self, leaves));
        };
        let Turn {
            mut parts,
            mut seat,
        } = self;
        let (heir, leaves) = parts.table.issue(&mut seat, leaves);
        parts.promises = Some(leaves);
        Ok((Owed { parts, seat }, Turn::heir(next, heir)))
    }

    /// The turn that was issued with this seat.
    pub(crate) fn heir(parts: Box<Parts<P>>, seat: TableSeat<P>) -> Turn<P>
        requires table { arc_value parts.value.table ≡ seat.table_id }
        requires aside { IsAside seat.me }
        requires token { seat.me.0.token ≡ Some (token_away parts.value.buffer parts.value.number parts.value.expects) }
        requires bare { (seat.me.0.opens ≡ false) × (seat.me.0.stock ≡ []) × (seat.me.1 ≡ []) }
        requires range { parts.value.buffer < seat.table_id.slots }
        ensures { result ≡ last_turn seat.table_id parts.value }
    {
        Turn { parts, seat }
    }
}

impl<P: Stamped> Drop for Turn<P> {
    fn drop(self) {
        let Turn { parts, seat } = self;
        parts.table.let_go(seat, parts.buffer, parts.number);
    }
}
