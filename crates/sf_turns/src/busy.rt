//! A turn at a buffer's pixels that has entered and was handed on already: all that is left for it
//! is to leave.
ghost use Rattle.std.specs.Prelude.{◌≡◌, ◌<◌};
ghost use Rattle.sf_turns.specs.Views.{Leaves, IsExactAlone};

use crate::parts::Parts;
use crate::seat::TurnSeat;
use crate::stamped::Stamped;
use crate::turn_table::TableSeat;
use std::marker::Model;

/// A turn that has entered, with its pixels handed out, after which the next one was issued. It
/// can't be dropped: it must leave.
pub struct Busy<P: Stamped> {
    pub(crate) parts: Box<Parts<P>>,
    pub(crate) seat: TableSeat<P>,
}

impl<P: Stamped> Model for Busy<P> {
    ghost use Rattle.std.specs.Prelude.{[], ◌∷◌};
    ghost use Rattle.sf_turns.specs.declared.protocol.Home.TheVariants.{Vacant};
    ghost use Rattle.sf_turns.specs.declared.protocol.Stage.TheVariants as stage;
    ghost use Rattle.sf_turns.specs.Tokens.{HasIssued, issued_turn};
    ghost use Rattle.sf_turns.specs.Views.{IssuedView};

    ghost Value = { IssuedView P.Stamp };

    ghost view = { λ s. issued_turn s.seat.table_id s.parts.value };

    ghost invariant = { λ s. HasIssued s.parts.value s.seat stage.Inside ((s.parts.value.buffer, Vacant) ∷ []) };
}

impl<P: Stamped> Busy<P> {
    /// The number of its buffer, one of the table's.
    pub fn buffer(&self) -> u32
        ensures number { result ≡ self.now.buffer }
        ensures inside { result < self.now.table.slots }
    {
        self.parts.buffer
    }

    /// Its number in the chain of its buffer, from 0.
    pub fn number(&self) -> u64
        ensures { result ≡ self.now.number }
    {
        self.parts.number
    }

    /// The stamp that it promised to leave.
    pub fn promised(&self) -> &P::Stamp
        ensures { result.now ≡ self.now.promises }
    {
        match &self.parts.promises {
            Some(promised) => promised,
            None => unreachable!(),
        }
    }

    /// Leaves, with the pixels as they were promised: they are home before the count of the
    /// buffer's leaves rises, by one atomic step. The turn is then among the seat's leaves.
    pub fn leave(self, seat: &mut TurnSeat<P>, p: P)
        requires table { self.table ≡ seat.old.table }
        requires promised { P.stamp_of p ≡ self.promises }
        ensures left { Leaves seat.old self.buffer self.number seat.new }
        ensures exact { IsExactAlone seat.new }
    {
        let Busy {
            parts,
            seat: mut own,
        } = self;
        parts.table.finish(&mut own, parts.buffer, p);
        seat.take_leave(own, parts.buffer);
    }
}
