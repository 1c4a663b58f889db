//! One kind of news: the latest of it, and which threads are idle until more comes.
ghost use Rattle.std.specs.Prelude.{◌≤◌};

use crate::wait_point::WaitPoint;
use std::sync::atomic::{AtomicBool, AtomicU64, Ordering};

/// One kind of news, which threads read without a lock.
#[derive(Drop)]
pub(crate) struct Kind {
    /// The latest of it, of all news.
    latest: AtomicU64,
    /// Whether a thread may be idle until more comes. False only where none is.
    awaited: AtomicBool,
    /// For threads that wait until more comes.
    pub(crate) changed: WaitPoint,
}

impl Kind {
    /// None since the first news of all.
    pub(crate) fn new() -> Kind {
        Kind {
            latest: AtomicU64::new(1),
            awaited: AtomicBool::new(false),
            changed: WaitPoint::new(),
        }
    }

    /// The latest of it.
    pub(crate) fn latest(&self) -> u64 {
        self.latest.load(Ordering::SeqCst)
    }

    /// Whether some came that are later than those that were seen.
    pub(crate) fn has_come(&self, seen: u64) -> bool {
        seen < self.latest()
    }

    /// These are of this kind. Whether a thread may be idle until then.
    pub(crate) fn bring(&self, news: u64) -> bool {
        self.latest.fetch_max(news, Ordering::SeqCst);
        self.awaited.load(Ordering::SeqCst)
    }

    /// Whether a thread may be idle from now on.
    pub(crate) fn set_awaited(&self, awaited: bool) {
        self.awaited.store(awaited, Ordering::SeqCst);
    }
}

/// Threads that are idle until more of one kind comes. It is changed under a lock.
#[derive(Clone, Copy)]
pub(crate) struct Idle {
    /// The latest news of the kind that all of them have seen.
    known: u64,
    /// How many there are.
    pub(crate) count: usize,
}

impl Idle {
    /// None.
    pub(crate) fn none() -> Idle {
        Idle { known: 1, count: 0 }
    }

    /// These are the latest of the kind: who has not seen them is not idle any more.
    pub(crate) fn know(&mut self, latest: u64) {
        if self.known != latest {
            *self = Idle {
                known: latest,
                count: 0,
            };
        }
    }

    /// One more is idle.
    pub(crate) fn add(&mut self) {
        self.count = self.count.saturating_add(1);
    }
}
