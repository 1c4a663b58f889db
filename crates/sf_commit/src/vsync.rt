//! What a vsync answers: its commits, the frames to release and what is held; and, where it is asked
//! for, the view with the places of its pixels.
use sf_base::{Fence, Items, LayerId, QueueId, TokenId};
use sf_commit_next::{Hold, Lease};
use sf_view::View;
use sf_view::sf_layer::Shown;
use std::marker::Model;

/// A transaction that was committed, or rejected as a whole.
pub struct Commit {
    pub token: TokenId,
    /// Its place in the order of arrival.
    pub number: u32,
    /// 0, or the number of the cause for which it was rejected.
    pub cause: u32,
    /// The place of the operation that was rejected, from 1, or 0.
    pub op: u32,
    /// Its buffers, each with its layer.
    pub buffers: Items<(LayerId, Shown)>,
}

/// A frame that goes back to its queue.
#[derive(Drop)]
pub struct Release<L: Lease> {
    pub queue: QueueId,
    pub frame: u64,
    /// The points to wait for before it is written again: of an unread frame its acquire fence.
    pub fence: Fence,
    pub lease: L,
}

impl<L: Lease> Model for Release<L> {
    ghost use Rattle.sf_commit.specs.Releases.{ReleaseOf};

    ghost Value = { ReleaseOf L };

    ghost view = { λ r. record { queue = r.queue; frame = r.frame; fence = r.fence; lease = r.lease } };
}

/// What a vsync did.
#[derive(Drop)]
pub struct Committed<L: Lease> {
    /// In the order in which they were made.
    pub commits: Items<Commit>,
    /// In the order of the commits, and within one in that of its operations.
    pub releases: Items<Release<L>>,
    /// What is pending, by its number in the order of arrival, and why.
    pub held: Items<(u32, Hold)>,
}

impl<L: Lease> Model for Committed<L> {
    ghost use Rattle.sf_commit.specs.Releases.{CommittedOf};

    ghost Value = { CommittedOf L };

    ghost view = { λ c. record { commits = c.commits; releases = c.releases; held = c.held } };
}

/// What a vsync did, with what the display shows then.
#[derive(Drop)]
pub struct Vsync<L: Lease> {
    /// In the order in which they were made.
    pub commits: Items<Commit>,
    /// What the display shows now.
    pub view: View,
    /// For each drawn layer of the view the place of its buffer in the contents.
    pub sources: Items<u32>,
    /// In the order of the commits, and within one in that of its operations.
    pub releases: Items<Release<L>>,
    /// What is pending, by its number in the order of arrival, and why.
    pub held: Items<(u32, Hold)>,
}

impl<L: Lease> Model for Vsync<L> {
    ghost use Rattle.sf_commit.specs.Releases.{VsyncOf};

    ghost Value = { VsyncOf L };

    ghost view = { λ v. record { commits = v.commits; view = v.view; sources = v.sources; releases = v.releases; held = v.held } };
}

impl Drop for Commit {
    fn drop(self) {
        let Commit {
            token: _,
            number: _,
            cause: _,
            op: _,
            buffers: _,
        } = self;
    }
}
