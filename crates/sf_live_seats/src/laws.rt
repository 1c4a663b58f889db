//! A law about the first caller's seats, called for its clauses alone.
ghost use Rattle.std.specs.Prelude.{◌≡◌};
ghost use Rattle.sf_live_seats.specs.declared.first.FirstSeats.{FirstSeats};
ghost use Rattle.sf_live_seats.specs.declared.locks.Locks.{Locks};
ghost use Rattle.sf_live_seats.specs.declared.seats.Seats.{Seats};
ghost use Rattle.sf_live_seats.specs.Observers.{SeatGoesOn};
ghost use Rattle.sf_live_seats.specs.First.{StaysFirst};
ghost use Rattle.sf_live_seats.specs.Moves.{ChangesArrivals, ChangesPasses, Stays};

use sf_turns::TableName;

/// The first caller's seats are its first ones still, after any calls through them.
pub fn first_seats_stay_first<B: TableName>()
    ensures stays { (locks : Locks B) (old new : FirstSeats B) → StaysFirst B.table locks old new }
    ensures called { (old new : Seats B) → ChangesPasses old new → Stays old new }
    ensures sent { (old new : Seats B) → ChangesArrivals old new → Stays old new }
    ensures looked { (old new : Seats B) → new ≡ record old { turns = new.turns } → SeatGoesOn old.turns new.turns → Stays old new }
{}
