//! A turn that has entered and has the pixels, before the next turn is issued.
ghost use Rattle.std.specs.Prelude.{◌≡◌, ◌<◌, IfOk, IfErr};
ghost use Rattle.sf_turns.specs.Views.{issued_with, heir_expecting};

use crate::busy::Busy;
use crate::parts::{Parts, first_parts};
use crate::stamped::Stamped;
use crate::turn::Turn;
use crate::turn_table::TableSeat;
use sf_base::NoMemory;
use std::marker::Model;
use std::sync::Arc;

/// A turn that has entered, with its pixels handed out. It gives them back unused, or issues the
/// next turn. Where it is dropped, the buffer has no further turn.
pub struct Inside<P: Stamped> {
    pub(crate) parts: Box<Parts<P>>,
    pub(crate) seat: TableSeat<P>,
}

impl<P: Stamped> Model for Inside<P> {
    ghost use Rattle.std.specs.Prelude.{[], ◌∷◌, None};
    ghost use Rattle.sf_turns.specs.declared.protocol.Home.TheVariants.{Vacant};
    ghost use Rattle.sf_turns.specs.declared.protocol.Stage.TheVariants as stage;
    ghost use Rattle.sf_turns.specs.Tokens.{HasToken, last_turn};
    ghost use Rattle.sf_turns.specs.Views.{TurnView};

    ghost Value = { TurnView P.Stamp };

    ghost view = { λ s. last_turn s.seat.table_id s.parts.value };

    ghost invariant = { λ s. HasToken s.parts.value s.seat stage.Inside None ((s.parts.value.buffer, Vacant) ∷ []) };
}

impl<P: Stamped> Inside<P> {
    /// The number of its buffer, one of the table's.
    pub fn buffer(&self) -> u32
        ensures number { result ≡ self.now.buffer }
        ensures inside { result < self.now.table.slots }
    {
        self.parts.buffer
    }

    /// Its number in the chain of its buffer, from 0.
    pub fn number(&self) -> u64
        ensures { result ≡ self.now.number }
    {
        self.parts.number
    }

    /// The stamp that it found.
    pub fn expects(&self) -> &P::Stamp
        ensures { result.now ≡ self.now.expects }
    {
        &self.parts.expects
    }

    /// Gives the pixels back with the stamp that was found: it is then the same turn again, which
    /// has not entered.
    pub fn give_up(self, p: P) -> Turn<P>
        requires { P.stamp_of p ≡ self.expects }
        ensures { result ≡ self }
    {
        let Inside { parts, mut seat } = self;
        parts.table.give_back(&mut seat, parts.buffer, p);
        Turn { parts, seat }
    }

    /// Issues the next turn, which expects what this one promises to leave. This one is then busy.
    /// Out of memory hands both back.
    pub fn issue(
        self,
        leaves: P::Stamp,
    ) -> Result<(Busy<P>, Turn<P>), (NoMemory, Inside<P>, P::Stamp)>
        ensures busy { IfOk result (λ r. r.0 ≡ issued_with self leaves) }
        ensures heir { IfOk result (λ r. r.1 ≡ heir_expecting self leaves) }
        ensures back { IfErr result (λ e. (e.1 ≡ self) × (e.2 ≡ leaves)) }
    {
        if self.parts.number == u64::MAX {
            return Err((NoMemory, self, leaves));
        }
        let Ok(expects) = P::copy_stamp(self.parts.table.alloc, &leaves) else {
            return Err((NoMemory, self, leaves));
        };
        let Ok(again) = Arc::try_clone(&self.parts.table) else {
            return Err((NoMemory, self, leaves));
        };
        let next = first_parts(again, self.parts.buffer, self.parts.number + 1, expects);
        let Ok(next) = Box::new(self.parts.table.alloc, next) else {
            return Err((NoMemory, self, leaves));
        };
        let Inside {
            mut parts,
            mut seat,
        } = self;
        let (heir, leaves) = parts.table.issue(&mut seat, leaves);
        parts.promises = Some(leaves);
        Ok((Busy { parts, seat }, Turn::heir(next, heir)))
    }
}

impl<P: Stamped> Drop for Inside<P> {
    fn drop(self) {
        let Inside { parts: _, seat: _ } = self;
    }
}
