//! What came of a vsync.
use sf_base::Items;
use sf_play_report::{Hold, VsyncReport};

/// What came of a vsync.
#[derive(Drop)]
pub struct VsyncOutcome {
    /// What it did.
    pub report: VsyncReport,
    /// What is held after it, by the numbers of arrivals.
    pub held: Items<(u32, Hold)>,
    /// How many transactions it took.
    pub taken: usize,
    /// How many frames it gave back.
    pub released: usize,
}
