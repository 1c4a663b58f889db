//! What a caller's pass at the arrivals showed, kept for proofs alone: it takes no room.
use crate::arrivals_seat::ArrivalsSeat;
use sf_turns::TableName;
use std::marker::Model;
use std::snapshot::Snapshot;

/// What a caller's pass at the arrivals shows, or what it showed when it was given away. It is for
/// proofs alone, and contracts see it as the pass.
pub struct Shown<B: TableName> {
    pass: Snapshot<ArrivalsSeat<B>>,
}

impl<B: TableName> Model for Shown<B> {
    ghost use Rattle.sf_live_seats.specs.Arriving.{ArrivalsPass};

    ghost Value = { ArrivalsPass };

    ghost view = { λ shown. shown.pass.value };
}

impl<B: TableName> Shown<B> {
    ghost use Rattle.std.specs.Prelude.{◌≡◌};

    /// What this pass shows.
    pub(crate) fn of(pass: &ArrivalsSeat<B>) -> Shown<B>
        ensures { result ≡ pass.now }
    {
        Shown {
            pass: Snapshot::of(pass),
        }
    }
}

impl<B: TableName> Drop for Shown<B> {
    fn drop(self) {
        let Shown { pass: _ } = self;
    }
}
