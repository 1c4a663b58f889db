//! Pixels that show a number, and count how many of them were dropped.
ghost use Rattle.std.specs.Prelude.{◌≡◌};

use sf_base::NoMemory;
use sf_turns::Stamped;
use std::alloc::Global;
use std::sync::Arc;
use std::sync::atomic::{AtomicU64, Ordering};

/// How many pixels were dropped, shared by all of a run.
pub type Drops = Arc<AtomicU64, Global>;

pub struct Counted {
    pub stamp: u64,
    pub drops: Drops,
}

impl Drop for Counted {
    fn drop(self) {
        let Counted { stamp: _, drops } = self;
        drops.fetch_add(1, Ordering::SeqCst);
    }
}

impl Stamped for Counted {
    type Stamp = u64;

    ghost stamp_of = { λ p. p.stamp };

    fn stamp(&self) -> &u64 {
        &self.stamp
    }

    fn copy_stamp(_: Global, stamp: &u64) -> Result<u64, NoMemory> {
        Ok(*stamp)
    }
}
