//! What one thread knows of the turns that have left, and through which its own turns leave.
ghost use Rattle.std.specs.Prelude.{◌≡◌, ◌+◌, ◌<◌, ℕ, true, false, [], Some, IfOk, OnErr};
ghost use Rattle.sf_turns.specs.declared.protocol.Stage.TheVariants as stage;
ghost use Rattle.sf_turns.specs.declared.protocol.Token.{Token};
ghost use Rattle.sf_turns.specs.Rule.{IsAside, seen_note};
ghost use Rattle.sf_turns.specs.Views.{Observes, Leaves, joined, IsExactAlone};

use crate::stamped::Stamped;
use crate::turn_table::{TableSeat, TurnTable};
use sf_base::NoMemory;
use std::marker::Model;
use std::sync::Arc;

/// What one thread knows of the table: which turns left through it, and the greatest count of
/// leaves of each buffer that it has seen.
pub struct TurnSeat<P: Stamped> {
    pub(crate) table: Arc<TurnTable<P>>,
    pub(crate) seat: TableSeat<P>,
}

impl<P: Stamped> Model for TurnSeat<P> {
    ghost use Rattle.std.specs.Arc.{arc_value};
    ghost use Rattle.std.specs.Prelude.{◌≡◌, false, [], None};
    ghost use Rattle.sf_turns.specs.Counts.{IsExact};
    ghost use Rattle.sf_turns.specs.Rule.{IsAlone};
    ghost use Rattle.sf_turns.specs.Views.{SeatView};

    ghost Value = { SeatView };

    ghost view = { λ s. record {
      table = s.seat.table_id;
      is_first = s.seat.me.0.is_first;
      out = s.seat.me.0.out;
      leaves = s.seat.me.0.leaves;
      seen = s.seat.me.0.seen;
    } };

    ghost invariant = { λ s. (arc_value s.table ≡ s.seat.table_id) × (s.seat.me.0.live ≡ 1)
        × (s.seat.me.0.token ≡ None) × (s.seat.me.0.stock ≡ []) × (s.seat.me.0.opens ≡ false)
        × (s.seat.me.1 ≡ []) × (IsAlone s.seat.me.0
        → IsExact s.seat.table_id.slots s.seat.me.0.leaves s.seat.me.0.seen) };
}

impl<P: Stamped> TurnSeat<P> {
    /// A seat for another thread, which has seen what this one has and has no leaves. This is the
    /// first seat, and then has one more seat out. Out of memory changes nothing.
    pub fn split(&mut self) -> Result<TurnSeat<P>, NoMemory>
        requires { self.old.is_first ≡ true }
        ensures ok { IfOk result (λ s. (self.new ≡ record self.old { out = self.old.out + 1 })
            × (s ≡ record self.old { is_first = false; out = 0; leaves = [] })) }
        ensures err { OnErr result (self.new ≡ self.old) }
    {
        let Ok(table) = Arc::try_clone(&self.table) else {
            return Err(NoMemory);
        };
        let seat = table.split(&mut self.seat);
        Ok(TurnSeat { table, seat })
    }

    /// Takes in a seat that was split off, with its leaves and with what it has seen. This is the
    /// first seat, and then has one seat less out; where it has none, its leaves of each buffer
    /// are all turns that left, each once.
    pub fn join(&mut self, other: TurnSeat<P>)
        requires table { other.table ≡ self.old.table }
        requires first { self.old.is_first ≡ true }
        ensures both { self.new ≡ joined self.old other }
        ensures exact { IsExactAlone self.new }
    {
        let TurnSeat { table: _, seat } = other;
        self.table.join(&mut self.seat, seat);
    }

    /// States, without a load, that a first seat with no other out has all turns that left, each
    /// once, and has seen no more.
    pub fn exact(&self)
        ensures { IsExactAlone self.now }
    {
        let _ = &self.seat;
    }

    /// How many turns of a buffer have left, by one load.
    pub(crate) fn load_leaves(&mut self, buffer: u32) -> u64
        requires { buffer < self.old.table.slots }
        ensures observed { Observes self.old buffer result self.new }
        ensures exact { IsExactAlone self.new }
    {
        self.table.load_leaves(&mut self.seat, buffer)
    }

    /// What the seat has seen, for a token to take in.
    pub(crate) fn note(&mut self) -> TableSeat<P>
        ensures same { self.new ≡ self.old }
        ensures note { (result.table_id ≡ self.old.table) × (result.me ≡ (seen_note self.old.seen, [])) }
    {
        self.table.note(&mut self.seat)
    }

    /// A turn whose pixels are home leaves through the seat.
    pub(crate) fn take_leave(&mut self, turn: TableSeat<P>, buffer: u32)
        requires own { turn.table_id ≡ self.old.table }
        requires range { buffer < self.old.table.slots }
        requires aside { IsAside turn.me × (turn.me.0.stock ≡ []) × (turn.me.1 ≡ []) }
        requires token { (t : Token P.Stamp) × (x : P.Stamp) × (turn.me.0.token ≡ Some t)
            × (t.stage ≡ stage.Done) × (t.buffer ≡ buffer) × (t.promise ≡ Some x) }
        ensures left { (t : Token P.Stamp) → turn.me.0.token ≡ Some t → Leaves self.old buffer t.number self.new }
        ensures exact { IsExactAlone self.new }
    {
        self.table.leave(&mut self.seat, turn, buffer);
    }
}

impl<P: Stamped> Drop for TurnSeat<P> {
    fn drop(self) {
        let TurnSeat { table: _, seat: _ } = self;
    }
}
