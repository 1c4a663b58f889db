//! What lines of regions, rows of pixels, pictures and fences made.
use sf_base::{Fence, Seen};
use sf_picture::{Painted, Picture};
use sf_region::Region;
use std::alloc::Global;

/// Regions and pictures on a stack each, two rows of pixels, two fences, and what is seen.
#[derive(Drop)]
pub struct Made {
    pub alloc: Global,
    pub regions: Vec<Region>,
    /// The rows that are painted on and from.
    pub frame: Vec<u8>,
    pub source: Vec<u8>,
    pub pictures: Vec<Picture>,
    /// The picture that was painted last.
    pub painted: Option<Painted>,
    pub fence: Fence,
    pub other: Fence,
    pub seen: Seen,
}

impl Made {
    pub fn new(alloc: Global) -> Made {
        Made {
            alloc,
            regions: Vec::new(alloc),
            frame: Vec::new(alloc),
            source: Vec::new(alloc),
            pictures: Vec::new(alloc),
            painted: None,
            fence: Fence::none(),
            other: Fence::none(),
            seen: Seen { values: [0; 64] },
        }
    }
}
