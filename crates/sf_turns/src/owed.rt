//! A turn that was handed on before it entered: the drawing of a frame that was queued first.
ghost use Rattle.std.specs.Prelude.{◌≡◌, ℕ, ◌<◌, ◌≤◌, IfOk, IfErr, MatchResult};
ghost use Rattle.sf_turns.specs.Views.{Observes, IsExactAlone};

use crate::busy::Busy;
use crate::parts::Parts;
use crate::seat::TurnSeat;
use crate::stamped::Stamped;
use crate::turn_table::TableSeat;
use std::marker::Model;

/// A turn that has not entered, after which the next one was issued: work that is still owed.
/// Where it is dropped, no later turn of the buffer ever enters.
pub struct Owed<P: Stamped> {
    pub(crate) parts: Box<Parts<P>>,
    pub(crate) seat: TableSeat<P>,
}

impl<P: Stamped> Model for Owed<P> {
    ghost use Rattle.std.specs.Prelude.{[]};
    ghost use Rattle.sf_turns.specs.declared.protocol.Stage.TheVariants.{Away};
    ghost use Rattle.sf_turns.specs.Tokens.{HasIssued, issued_turn};
    ghost use Rattle.sf_turns.specs.Views.{IssuedView};

    ghost Value = { IssuedView P.Stamp };

    ghost view = { λ s. issued_turn s.seat.table_id s.parts.value };

    ghost invariant = { λ s. HasIssued s.parts.value s.seat Away [] };
}

impl<P: Stamped> Owed<P> {
    /// The number of its buffer, one of the table's.
    pub fn buffer(&self) -> u32
        ensures number { result ≡ self.now.buffer }
        ensures inside { result < self.now.table.slots }
    {
        self.parts.buffer
    }

    /// Its number in the chain of its buffer, from 0.
    pub fn number(&self) -> u64
        ensures { result ≡ self.now.number }
    {
        self.parts.number
    }

    /// The stamp that it promised to leave.
    pub fn promised(&self) -> &P::Stamp
        ensures { result.now ≡ self.now.promises }
    {
        match &self.parts.promises {
            Some(promised) => promised,
            None => unreachable!(),
        }
    }

    /// Enters, and takes the pixels, which have the stamp that was expected. The turn comes back
    /// exactly where the load of this call showed that fewer turns have left than its number.
    pub fn enter(self, seat: &mut TurnSeat<P>) -> Result<(Busy<P>, P), Owed<P>>
        requires { self.table ≡ seat.old.table }
        ensures observed { (n : ℕ) × Observes seat.old self.buffer n seat.new × MatchResult result (λ _. n ≡ self.number) (λ _. n < self.number) }
        ensures entered { IfOk result (λ r. (r.0 ≡ self) × (P.stamp_of r.1 ≡ self.expects)) }
        ensures back { IfErr result (λ t. t ≡ self) }
        ensures exact { IsExactAlone seat.new }
    {
        let (buffer, number) = (self.parts.buffer, self.parts.number);
        if seat.load_leaves(buffer) < number {
            return Err(self);
        }
        let note = seat.note();
        let Owed {
            parts,
            seat: mut own,
        } = self;
        let p = parts.table.enter(&mut own, note, buffer);
        Ok((Busy { parts, seat: own }, p))
    }
}

impl<P: Stamped> Drop for Owed<P> {
    fn drop(self) {
        let Owed { parts: _, seat: _ } = self;
    }
}
