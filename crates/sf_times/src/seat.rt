//! One thread's seat at the timelines, through which an actor signals points and a vsync observes
//! them.
ghost use Rattle.std.specs.Prelude.{◌≡◌, ℕ, ◌-◌, ◌≤◌, true, slice_index};
ghost use Rattle.sf_base.specs.Points.{greatest, points_from};
ghost use Rattle.sf_times.specs.Seats.{lending, split_off, joined, loaded, all_loaded, raised, IsAlone, OnlyOwnSignals};

use crate::protocol::{Audit, Knows, Load, Signal, SplitOff, TakeIn};
use crate::timelines::Timelines;
use atomic_table::Seat;
use sf_base::{Seen, TimelineId};
use std::marker::Model;

/// One thread's seat at the timelines. It has no bytes: contracts see what the thread knows of
/// the counters, that is, which points it signalled and which values its loads showed.
pub struct TimeSeat {
    pub(crate) seat: Seat<(), Knows>,
}

impl Model for TimeSeat {
    ghost use Rattle.std.specs.Prelude.{◌≡◌, []};
    ghost use Rattle.sf_times.specs.Seats.{IsAlone, OnlyOwnSignals};
    ghost use Rattle.sf_times.specs.Views.{SeatView};

    ghost Value = { SeatView };

    ghost view = { λ s. record { table = s.seat.table_id; knows = s.seat.me.0 } };

    ghost invariant = { λ s. (s.seat.me.0.live ≡ 1) × (s.seat.me.1 ≡ []) × (IsAlone s.seat.me.0 → OnlyOwnSignals s.seat.me.0) };
}

impl TimeSeat {
    /// A seat for another thread, which has seen what this one has. This is the first seat,
    /// and then has one more seat out.
    pub fn split(&mut self, table: &Timelines) -> TimeSeat
        requires own { self.old.table ≡ table.now }
        requires first { self.old.knows.is_first ≡ true }
        ensures kept { self.new ≡ record self.old { knows = lending self.old.knows } }
        ensures given { result ≡ record self.old { knows = split_off self.old.knows } }
    {
        let shared = &table.table.shared;
        TimeSeat {
            seat: shared.split_seat::<SplitOff>(&mut self.seat),
        }
    }

    /// Takes in a seat that was split off: this one, the first seat, has then seen and signalled
    /// what either has, and has one seat less out.
    pub fn join(&mut self, table: &Timelines, other: TimeSeat)
        requires own { self.old.table ≡ table.now }
        requires theirs { other.table ≡ table.now }
        requires first { self.old.knows.is_first ≡ true }
        ensures both { self.new ≡ record self.old { knows = joined self.old.knows other.knows } }
        ensures told { IsAlone self.new.knows → OnlyOwnSignals self.new.knows }
    {
        let TimeSeat { seat } = other;
        let shared = &table.table.shared;
        shared.join_seat::<TakeIn>(&mut self.seat, seat);
        shared.load::<Audit>(&mut self.seat, 0);
    }

    /// States, without a load, that all that a first seat with no other out knows was signalled
    /// through itself or a seat that it took in.
    pub fn exact(&self)
        ensures { IsAlone self.now.knows → OnlyOwnSignals self.now.knows }
    {
        let _ = &self.seat;
    }

    /// Signals the timeline at the value: its counter rises to the value, if it was lower. The
    /// timeline is 1 to 64. One atomic step.
    pub fn signal(&mut self, table: &Timelines, t: TimelineId, v: u64)
        requires own { self.old.table ≡ table.now }
        requires range { (1 ≤ t.0) × (t.0 ≤ 64) }
        ensures signalled { self.new ≡ record self.old { knows = raised self.old.knows (t.0, v) } }
        ensures told { IsAlone self.new.knows → OnlyOwnSignals self.new.knows }
    {
        let shared = &table.table.shared;
        shared.fetch_max::<Signal>(&mut self.seat, t.0 as usize, v);
    }

    /// The timeline's value, as one atomic load of this call shows it: at least all that this
    /// seat has seen of it and signalled, and exactly the greatest value signalled where the
    /// first seat has no other out. The timeline is 1 to 64.
    pub fn seen(&mut self, table: &Timelines, t: TimelineId) -> u64
        requires own { self.old.table ≡ table.now }
        requires range { (1 ≤ t.0) × (t.0 ≤ 64) }
        ensures shown { self.new ≡ record self.old { knows = loaded self.old.knows (t.0, result) } }
        ensures known { greatest t.0 self.old.knows.known ≤ result }
        ensures signalled { greatest t.0 self.old.knows.signals ≤ result }
        ensures exact { IsAlone self.old.knows → result ≡ greatest t.0 self.old.knows.signals }
        ensures told { IsAlone self.new.knows → OnlyOwnSignals self.new.knows }
    {
        let shared = &table.table.shared;
        shared.load::<Load>(&mut self.seat, t.0 as usize)
    }

    /// The values of all 64 timelines, each by a load as `seen` makes it, in order.
    pub fn see_all(&mut self, table: &Timelines) -> Seen
        requires own { self.old.table ≡ table.now }
        ensures shown { self.new ≡ record self.old { knows = all_loaded self.old.knows (points_from 1 result.values) } }
        ensures known { (t : ℕ) → 1 ≤ t → t ≤ 64 → greatest t self.old.knows.known ≤ slice_index result.values (t - 1) }
        ensures signalled { (t : ℕ) → 1 ≤ t → t ≤ 64 → greatest t self.old.knows.signals ≤ slice_index result.values (t - 1) }
        ensures exact { IsAlone self.old.knows → (t : ℕ) → 1 ≤ t → t ≤ 64 → slice_index result.values (t - 1) ≡ greatest t self.old.knows.signals }
        ensures told { IsAlone self.new.knows → OnlyOwnSignals self.new.knows }
    {
        let mut values = [0u64; 64];
        for i in 0..64u32 {
            values[i as usize] = self.seen(table, TimelineId(i + 1));
        }
        Seen { values }
    }
}

impl Drop for TimeSeat {
    fn drop(self) {
        let TimeSeat { seat: _ } = self;
    }
}
