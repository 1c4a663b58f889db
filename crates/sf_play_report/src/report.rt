//! What a vsync did, as the player and the compositor of a live run hand it to the writer of its
//! records.
ghost use Rattle.std.specs.Prelude.{◌≡◌};
ghost use Rattle.sf_play_report.specs.Reports.{has_commits};

use law_played::Commit;
use sf_base::{Items, Seen};

/// What a vsync did.
#[derive(Drop)]
pub struct VsyncReport {
    /// From 1.
    pub number: u32,
    /// When the frame is expected, in nanoseconds from the start of the run.
    pub expected: u64,
    /// What it saw of the timelines.
    pub seen: Seen,
    /// In the order in which they were made.
    pub commits: Items<Commit>,
}

impl VsyncReport {
    /// Whether a transaction was committed, or rejected as a whole.
    pub fn has_commits(&self) -> bool
        ensures { result ≡ has_commits self.now.commits }
    {
        !self.commits.as_slice().is_empty()
    }
}
