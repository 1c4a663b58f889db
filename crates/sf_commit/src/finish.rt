//! The second half of a vsync, behind its decisions: frames that go are handed back, and the pixels
//! of new ones are taken out.
ghost use Rattle.std.specs.List.{All};
ghost use Rattle.std.specs.Prelude.{[], IfOk};
ghost use Rattle.sf_commit.specs.inner.Following.{SettlesAll};
ghost use Rattle.sf_commit.specs.Leases.{AllOn, IsKnownOn};
ghost use Rattle.sf_commit.specs.Lending.{KeepsSome};
ghost use Rattle.sf_commit_next.specs.sf_txn.Leases.{IsEyeAfter};

use crate::keeping::KeptRead;
use crate::on::OnLayer;
use crate::opening::{Reading, open_all};
use crate::settle::release_all;
use crate::vsync::Release;
use sf_base::NoMemory;
use sf_commit_next::Lease;
use sf_view::sf_picture::Painted;
use std::alloc::Global;

/// What a vsync leaves on layers, and what goes.
#[derive(Drop)]
pub(crate) struct Settled<L: Lease> {
    pub on: Vec<Reading<L>>,
    pub contents: Vec<Painted>,
    pub releases: Vec<Release<L>>,
}

/// Hands back the buffers that go, whose reads are kept, and reads those that are newly shown. Out
/// of memory leaves the reads of those that were handed back.
pub(crate) fn settle_all<L: Lease + Drop>(
    alloc: Global,
    on: Vec<OnLayer<L>>,
    gone: Vec<OnLayer<L>>,
    kept: &mut Vec<KeptRead<L>>,
    eye: &mut L::Eye,
) -> Result<Settled<L>, NoMemory>
where
    L::Reading: Drop,
    requires staying { AllOn (L.fits (L.mark eye.old)) on.items }
    requires known { All (IsKnownOn L.Lease eye.old) on.items }
    ensures settles { IfOk result (λ s. SettlesAll L.Lease on.items gone.items kept.old.items
        s.on.items s.contents.items s.releases.items kept.new.items) }
    ensures some { KeepsSome kept.old.items kept.new.items gone.items }
    ensures eye { IsEyeAfter L.Lease eye.old eye.new [] }
{
    let releases = release_all(alloc, kept, gone)?;
    let mut readings = Vec::new(alloc);
    let mut contents = Vec::new(alloc);
    open_all(eye, on, &mut readings, &mut contents)?;
    // More than 32 bits can count are more than memory can have.
    if readings.len() > u32::MAX as usize {
        return Err(NoMemory);
    }
    Ok(Settled {
        on: readings,
        contents,
        releases,
    })
}
