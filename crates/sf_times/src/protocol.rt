//! What the words of the table and the seats of threads keep between any two atomic steps, and what
//! each kind of step shows the thread that makes it. Nothing here has code that runs.
use atomic_table::{Join, Play, Split, TableRule};
use std::collections::LinkedList;

/// What a seat knows of the timelines. It exists in proofs alone: no value of it is made. A
/// point is a timeline's number with a value of its counter.
pub struct Knows {
    /// Whether this is the seat that `Timelines::open` gave, which alone is split and joined.
    pub is_first: bool,
    /// 1 for a seat in use, 0 once it was joined into another.
    pub live: u64,
    /// How many seats were split off this one and not joined.
    pub out: u64,
    /// The points that were signalled through this seat, or through seats that it took in.
    pub signals: LinkedList<(u64, u64)>,
    /// The points that its loads showed, those of the seat that it was split off, and those of
    /// seats that it took in. So the seat counts its loads.
    pub shown: LinkedList<(u64, u64)>,
    /// All points that it knows to be reached: the two above, and what the seat that it was
    /// split off had seen and signalled.
    pub known: LinkedList<(u64, u64)>,
}

/// The rule that holds between any two steps: each counter is 0 or a value that was signalled,
/// and none below what some seat knows.
pub struct CountersRise;

impl TableRule<(), Knows, ()> for CountersRise {
    ghost use Rattle.sf_times.specs.inner.Rule.{Kept};
    ghost use Rattle.sf_times.specs.Seats.{opened};

    ghost holds = { λ _. Kept };

    ghost first = { λ _. opened };
}

/// A load of a counter.
pub struct Load;

impl Play<(), Knows> for Load {
    ghost use Rattle.sf_times.specs.inner.Rule.{Loads};

    ghost then = { Loads };
}

/// A load that shows the first seat, while no other is out, that the points that it was shown were
/// signalled through itself.
pub struct Audit;

impl Play<(), Knows> for Audit {
    ghost use Rattle.sf_times.specs.inner.Rule.{Audits};

    ghost then = { Audits };
}

/// A signal, which raises a counter.
pub struct Signal;

impl Play<(), Knows> for Signal {
    ghost use Rattle.sf_times.specs.inner.Rule.{Raises};

    ghost then = { Raises };
}

/// A seat for another thread, split off the first.
pub struct SplitOff;

impl Split<Knows> for SplitOff {
    ghost use Rattle.sf_times.specs.Seats.{lending, split_off};

    ghost left = { lending };

    ghost right = { split_off };
}

/// The first seat takes in another.
pub struct TakeIn;

impl Join<Knows> for TakeIn {
    ghost use Rattle.sf_times.specs.Seats.{joined, spent};

    ghost both = { joined };

    ghost spent = { spent };
}
