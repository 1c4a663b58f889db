//! What a step does at what all share: a thread asks it afterwards whom to wake, or what to wait
//! for. No fact rests on it.
use sf_base::QueueId;
use sf_live_watch::{Awaited, Effect, Slots};

/// What a step asked for at what all share, and what it waits for if it can't be done yet. One that is
/// done was given all that it asked for.
#[derive(Clone, Copy)]
pub struct Noted {
    /// On which queues it made calls.
    calls: Slots,
    /// Whether it sent a transaction.
    pub sends: bool,
    /// Whether it raised a timeline.
    signals: bool,
    /// Whether it ended a turn at pixels.
    ends: bool,
    pub awaited: Awaited,
}

impl Noted {
    /// Nothing was done; a step that only looks waits for a point.
    pub(crate) fn nothing() -> Noted {
        Noted {
            calls: Slots::OfNone,
            sends: false,
            signals: false,
            ends: false,
            awaited: Awaited::Point,
        }
    }

    /// It calls a queue: a call that is not done yet waits for a slot there.
    pub(crate) fn note_call(&mut self, queue: QueueId) {
        self.calls = self.calls.and(queue.0);
        self.awaited = Awaited::Slot(queue.0);
    }

    /// It sends a transaction.
    pub(crate) fn note_send(&mut self) {
        self.sends = true;
    }

    /// It raises a timeline.
    pub(crate) fn note_signal(&mut self) {
        self.signals = true;
    }

    /// It draws: a drawing that is not done yet waits for a turn.
    pub(crate) fn note_drawing(&mut self) {
        self.awaited = Awaited::Turn;
    }

    /// It ends a turn at pixels.
    pub(crate) fn note_end(&mut self) {
        self.ends = true;
    }

    /// Whether it did nothing that others can see.
    pub fn is_silent(self) -> bool {
        !(self.calls.is_any() || self.sends || self.signals || self.ends)
    }

    /// What that may bring those that wait for it: a call a free slot, a signal a point, and a signal or
    /// the end of a turn a turn, which waits for points too. A call alone is nothing to look at.
    pub fn effect(self) -> Effect {
        Effect {
            slots: self.calls,
            points: self.signals,
            turns: self.signals || self.ends,
            looks: self.sends || self.signals || self.ends,
        }
    }
}
