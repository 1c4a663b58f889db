//! Frames that no layer shows any more are handed back to the caller of the vsync, and their reads
//! are kept.
ghost use Rattle.std.specs.List.{AllZip};
ghost use Rattle.std.specs.Prelude.{◌≡◌, ◌+◌, ◌≤◌, ◌<◌, ◌++◌, ◌∷◌, [], IfOk, OnErr, OnOk};
ghost use Rattle.std.specs.Vec.{vec_capacity, vec_len};
ghost use Rattle.sf_commit.specs.Leases.{IsReleaseOf};
ghost use Rattle.sf_commit.specs.Lending.{KeepsSome, reads_of};

use crate::keeping::{KeptRead, keep};
use crate::on::{OnLayer, Pixels};
use crate::vsync::Release;
use sf_base::{Fence, NoMemory};
use sf_commit_next::Lease;
use std::alloc::Global;

/// A buffer that goes is handed back: an unread one as it came, one that was read by the lease that
/// its reading hands on. The read is kept.
fn release<L: Lease + Drop>(
    alloc: Global,
    kept: &mut Vec<KeptRead<L>>,
    one: OnLayer<L>,
) -> Result<Release<L>, NoMemory>
where
    L::Reading: Drop,
    requires room { vec_len kept.old < vec_capacity kept.old }
    ensures released { IfOk result (IsReleaseOf L.Lease one) }
    ensures kept { OnOk result (kept.new.items ≡ kept.old.items ++ reads_of (one ∷ [])) }
    ensures back { OnErr result (kept.new.items ≡ kept.old.items) }
    ensures room { vec_capacity kept.new ≡ vec_capacity kept.old }
    ensures len { vec_len kept.new ≤ vec_len kept.old + 1 }
{
    let OnLayer { shown, pixels, .. } = one;
    let (fence, lease) = match pixels {
        Pixels::Brought(fence, lease) => (fence, lease),
        Pixels::Read(reading, taken) => (Fence::none(), keep(alloc, kept, reading, taken)?),
    };
    Ok(Release {
        queue: shown.queue,
        frame: shown.frame,
        fence,
        lease,
    })
}

/// All buffers that go are handed back, in their order, and their reads are kept behind the earlier
/// ones. Out of memory leaves the reads of those that were handed back.
pub(crate) fn release_all<L: Lease + Drop>(
    alloc: Global,
    kept: &mut Vec<KeptRead<L>>,
    gone: Vec<OnLayer<L>>,
) -> Result<Vec<Release<L>>, NoMemory>
where
    L::Reading: Drop,
    ensures released { IfOk result (λ releases. AllZip (IsReleaseOf L.Lease) gone.items releases.items) }
    ensures kept { OnOk result (kept.new.items ≡ kept.old.items ++ reads_of gone.items) }
    ensures some { KeepsSome kept.old.items kept.new.items gone.items }
{
    kept.reserve(gone.len())?;
    let mut releases = Vec::new(alloc);
    for one in gone {
        releases.push(release(alloc, kept, one)?)?;
    }
    Ok(releases)
}
