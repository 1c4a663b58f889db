//! Pictures as the stamps that turns promise and expect.
use crate::stamped::Stamped;
use sf_base::NoMemory;
use sf_picture::{Painted, Picture};
use std::alloc::Global;

/// Painted pixels show their picture.
impl Stamped for Painted {
    type Stamp = Picture;

    ghost stamp_of = { λ p. p };

    fn stamp(&self) -> &Picture {
        self.picture()
    }

    fn copy_stamp(alloc: Global, stamp: &Picture) -> Result<Picture, NoMemory> {
        stamp.copy(alloc)
    }
}
