//! The rights to open buffers: a run's stock is cut into permits, one for each dequeue that may
//! need a new buffer.
ghost use Rattle.std.specs.Prelude.{◌≡◌, ◌<◌, ◌≤◌, false, ◌∷◌, length, take, drop, IfOk, IfErr, OnErr};
ghost use Rattle.sf_turns.specs.Views.{first_turn};

use crate::parts::first_parts;
use crate::stamped::Stamped;
use crate::turn::Turn;
use crate::turn_table::{TableSeat, TurnTable};
use sf_base::NoMemory;
use std::marker::Model;
use std::sync::Arc;

/// The right to open a number of buffers. Contracts see the list of their numbers.
pub struct Stock<P: Stamped> {
    pub(crate) table: Arc<TurnTable<P>>,
    pub(crate) seat: TableSeat<P>,
    pub(crate) from: u32,
    pub(crate) count: u32,
}

impl<P: Stamped> Model for Stock<P> {
    ghost use Rattle.std.specs.Arc.{arc_value};
    ghost use Rattle.std.specs.Prelude.{◌≡◌, ◌+◌, ◌<◌, ◌≤◌, ◌^◌, false, [], None};
    ghost use Rattle.sf_turns.specs.Counts.{range};
    ghost use Rattle.sf_turns.specs.Rule.{IsAside};
    ghost use Rattle.sf_turns.specs.Views.{StockView};

    ghost Value = { StockView };

    ghost view = { λ s. record { table = s.seat.table_id; buffers = range s.from s.count } };

    ghost invariant = { λ s. (arc_value s.table ≡ s.seat.table_id) × IsAside s.seat.me
        × (s.seat.me.0.token ≡ None) × (s.seat.me.0.opens ≡ false) × (s.seat.me.0.stock ≡ range s.from s.count)
        × (s.seat.me.1 ≡ []) × (s.from + s.count ≤ s.seat.table_id.slots) × (s.from + s.count < 2 ^ 32) };
}

/// The right to open one buffer.
pub struct Permit<P: Stamped> {
    table: Arc<TurnTable<P>>,
    seat: TableSeat<P>,
    buffer: u32,
}

impl<P: Stamped> Model for Permit<P> {
    ghost use Rattle.std.specs.Arc.{arc_value};
    ghost use Rattle.std.specs.Prelude.{◌≡◌, ◌<◌, false, [], ◌∷◌, None};
    ghost use Rattle.sf_turns.specs.Rule.{IsAside};
    ghost use Rattle.sf_turns.specs.Views.{PermitView};

    ghost Value = { PermitView };

    ghost view = { λ s. record { table = s.seat.table_id; buffer = s.buffer } };

    ghost invariant = { λ s. (arc_value s.table ≡ s.seat.table_id) × IsAside s.seat.me
        × (s.seat.me.0.token ≡ None) × (s.seat.me.0.opens ≡ false) × (s.seat.me.0.stock ≡ s.buffer ∷ [])
        × (s.seat.me.1 ≡ []) × (s.buffer < s.seat.table_id.slots) };
}

impl<P: Stamped> Stock<P> {
    /// A stock of the first n of the buffers, which this one then lacks. At most as many as it
    /// has left. Out of memory changes nothing.
    pub fn cut(&mut self, n: u32) -> Result<Stock<P>, NoMemory>
        requires { n ≤ length self.old.buffers }
        ensures ok { IfOk result (λ s. (s ≡ record self.old { buffers = take n self.old.buffers })
            × (self.new ≡ record self.old { buffers = drop n self.old.buffers })) }
        ensures err { OnErr result (self.new ≡ self.old) }
    {
        let Ok(table) = Arc::try_clone(&self.table) else {
            return Err(NoMemory);
        };
        let seat = table.cut(&mut self.seat, n as u64);
        let from = self.from;
        self.from += n;
        self.count -= n;
        Ok(Stock {
            table,
            seat,
            from,
            count: n,
        })
    }

    /// The right to open the first of the buffers, which this one then lacks. Something is left.
    /// Out of memory changes nothing.
    pub fn one(&mut self) -> Result<Permit<P>, NoMemory>
        requires { 0 < length self.old.buffers }
        ensures ok { IfOk result (λ p. (p.table ≡ self.old.table) × (self.old ≡ record self.new { buffers = p.buffer ∷ self.new.buffers })) }
        ensures err { OnErr result (self.new ≡ self.old) }
    {
        let Ok(table) = Arc::try_clone(&self.table) else {
            return Err(NoMemory);
        };
        let seat = table.cut(&mut self.seat, 1);
        let buffer = self.from;
        self.from += 1;
        self.count -= 1;
        Ok(Permit {
            table,
            seat,
            buffer,
        })
    }
}

impl<P: Stamped> Permit<P> {
    /// The number of the buffer that it may open, one of the table's.
    pub fn buffer(&self) -> u32
        ensures number { result ≡ self.now.buffer }
        ensures inside { result < self.now.table.slots }
    {
        self.buffer
    }

    /// Turn 0 of a new buffer with these pixels, which expects their stamp. Out of memory hands
    /// both back.
    pub fn open(self, p: P) -> Result<Turn<P>, (NoMemory, Permit<P>, P)>
        ensures ok { IfOk result (λ t. t ≡ first_turn self (P.stamp_of p)) }
        ensures err { IfErr result (λ e. (e.1 ≡ self) × (e.2 ≡ p)) }
    {
        let Ok(expects) = P::copy_stamp(self.table.alloc, p.stamp()) else {
            return Err((NoMemory, self, p));
        };
        let Ok(again) = Arc::try_clone(&self.table) else {
            return Err((NoMemory, self, p));
        };
        let parts = first_parts(again, self.buffer, 0, expects);
        let Ok(parts) = Box::new(self.table.alloc, parts) else {
            return Err((NoMemory, self, p));
        };
        let Permit {
            table,
            mut seat,
            buffer,
        } = self;
        table.begin(&mut seat, buffer, p);
        Ok(Turn { parts, seat })
    }
}

impl<P: Stamped> Drop for Permit<P> {
    fn drop(self) {
        let Permit {
            table: _,
            seat: _,
            buffer: _,
        } = self;
    }
}

impl<P: Stamped> Drop for Stock<P> {
    fn drop(self) {
        let Stock {
            table: _,
            seat: _,
            from: _,
            count: _,
        } = self;
    }
}
