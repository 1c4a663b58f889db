//! What lines ask of a watch.
use sf_live_watch::Awaited;

/// A call that answers nothing.
#[derive(Clone, Copy)]
pub enum Tell {
    LookOn,
    Looked,
    Again,
    Ended,
    Stop,
}

/// A question of yes or no.
#[derive(Clone, Copy)]
pub enum Ask {
    Next,
    IsStopped,
    /// A wait for a look at the last news for the starter.
    Wait,
    Unseen,
}

/// A call on a place.
#[derive(Clone, Copy)]
pub enum At {
    TurnAway,
    IsTurnedAway,
}

/// Threads that wait for one thing.
#[derive(Clone, Copy)]
pub enum Awaits {
    Late,
    Wakes,
}

/// What a line asks for.
#[derive(Clone, Copy)]
pub enum Call {
    Tell(Tell),
    Ask(Ask),
    At(At),
    Awaits(Awaits),
    Done,
    Count,
    Look,
}

/// The calls by their names.
pub const CALLS: &[(&str, Call)] = &[
    ("turn-away", Call::At(At::TurnAway)),
    ("is-turned-away", Call::At(At::IsTurnedAway)),
    ("next", Call::Ask(Ask::Next)),
    ("look-on", Call::Tell(Tell::LookOn)),
    ("looked", Call::Tell(Tell::Looked)),
    ("again", Call::Tell(Tell::Again)),
    ("done", Call::Done),
    ("ended", Call::Tell(Tell::Ended)),
    ("is-stopped", Call::Ask(Ask::IsStopped)),
    ("wait", Call::Ask(Ask::Wait)),
    ("late", Call::Awaits(Awaits::Late)),
    ("unseen", Call::Ask(Ask::Unseen)),
    ("stop", Call::Tell(Tell::Stop)),
    ("count", Call::Count),
    ("wakes", Call::Awaits(Awaits::Wakes)),
    ("look", Call::Look),
];

/// What a word says that a thread waits for.
pub const AWAITED: &[(&str, Awaited)] = &[
    ("slot", Awaited::Slot(1)),
    ("slot-2", Awaited::Slot(2)),
    ("point", Awaited::Point),
    ("turn", Awaited::Turn),
];
