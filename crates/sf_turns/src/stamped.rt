//! Pixels with plain data about them, as a trait: what a turn promises to leave, and the next one
//! expects to find.
ghost use Rattle.std.specs.Prelude.{◌≡◌, IfOk};

use sf_base::NoMemory;
use std::alloc::Global;

/// Pixels that show plain data, their stamp, which is what turns promise and expect.
pub trait Stamped: Drop {
    type Stamp: Drop;

    ghost stamp_of: { Self → Self.Stamp };

    /// What the pixels show.
    fn stamp(&self) -> &Self::Stamp
        ensures { result.now ≡ stamp_of self.now };

    /// An equal stamp.
    fn copy_stamp(alloc: Global, stamp: &Self::Stamp) -> Result<Self::Stamp, NoMemory>
        ensures { IfOk result (λ copy. copy ≡ stamp.now) };
}
