//! What threads wait for, and what brings it.
ghost use Rattle.std.specs.Prelude.{◌<◌};

/// What a thread waits for that is idle.
#[derive(Clone, Copy)]
pub enum Awaited {
    /// A free slot of the queue of this number.
    Slot(u32),
    /// A point of a timeline.
    Point,
    /// A turn at the pixels of a buffer.
    Turn,
}

/// Queues whose numbers differ by a multiple of this count as one.
const QUEUES: u32 = 16;

/// How many kinds of news there are: a queue's slots, points and turns.
pub(crate) const KINDS: usize = 18;

/// The kinds that are no queue's slots come first.
pub(crate) const FIRST_SLOT: usize = 2;

impl Awaited {
    /// Its index among the kinds.
    pub(crate) fn index(self) -> usize
        ensures { result < 18 }
    {
        match self {
            Awaited::Point => 0,
            Awaited::Turn => 1,
            Awaited::Slot(queue) => FIRST_SLOT + (queue % QUEUES) as usize,
        }
    }
}

/// Of which queues a slot may be free.
#[derive(Clone, Copy)]
pub enum Slots {
    OfNone,
    /// Of the queue of this number.
    Of(u32),
    OfAny,
}

impl Slots {
    /// Whether there is such a queue.
    pub fn is_any(self) -> bool {
        !matches!(self, Slots::OfNone)
    }

    /// Of the queue of this number too.
    pub fn and(self, queue: u32) -> Slots {
        match self {
            Slots::OfNone => Slots::Of(queue),
            Slots::Of(one) if one == queue => self,
            Slots::Of(_) | Slots::OfAny => Slots::OfAny,
        }
    }
}

/// What something that was done may have brought those that wait for it.
#[derive(Clone, Copy)]
pub struct Effect {
    pub slots: Slots,
    pub points: bool,
    pub turns: bool,
    /// Something that the starter looks at.
    pub looks: bool,
}
