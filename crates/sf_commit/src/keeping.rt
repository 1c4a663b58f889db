//! Reads that go on after their buffers were handed back: they are kept until the pixels that they
//! read are back.
ghost use Rattle.std.specs.Prelude.{◌≡◌, ◌+◌, ◌≤◌, ◌<◌, ◌++◌, ◌∷◌, [], IfOk, OnErr, OnOk, true};
ghost use Rattle.std.specs.Vec.{vec_capacity, vec_len};
ghost use Rattle.sf_commit.specs.Inside.{ShowsHere, place_of};
ghost use Rattle.sf_commit.specs.Leases.{HandsBack};

use crate::on::TakenPixels;
use sf_base::NoMemory;
use sf_commit_next::Lease;
use std::alloc::Global;
use std::marker::Model;
use std::snapshot::Snapshot;

/// A read that goes on after its lease was handed on, until its pixels come back. It is left by
/// closing it.
pub(crate) struct KeptRead<L: Lease> {
    pub opened: Snapshot<L::Reading>,
    pub closing: L::Closing,
    pub taken: TakenPixels,
}

impl<L: Lease> Model for KeptRead<L> {
    ghost use Rattle.sf_commit.specs.Inside.{IsKeptRead, place_of};
    ghost use Rattle.sf_commit.specs.Lending.{KeptRead};

    ghost Value = { KeptRead L };

    ghost view = { λ k. record { lease = L.opened k.opened.value; place = place_of k.taken } };

    ghost invariant = { λ k. IsKeptRead L.Lease (L.opened k.opened.value) k.closing k.taken };
}

/// Hands on the lease of a reading, and keeps the read. Out of memory ends the reading.
pub(crate) fn keep<L: Lease + Drop>(
    alloc: Global,
    kept: &mut Vec<KeptRead<L>>,
    reading: L::Reading,
    taken: TakenPixels,
) -> Result<L, NoMemory>
where
    L::Reading: Drop,
    requires here { ShowsHere taken (L.picture (L.opened reading)) }
    requires room { vec_len kept.old < vec_capacity kept.old }
    ensures handed { IfOk result (HandsBack L.Lease true (L.opened reading)) }
    ensures kept { OnOk result (kept.new.items ≡ kept.old.items ++ record { lease = L.opened reading; place = place_of taken } ∷ []) }
    ensures back { OnErr result (kept.new.items ≡ kept.old.items) }
    ensures room { vec_capacity kept.new ≡ vec_capacity kept.old }
    ensures len { vec_len kept.new ≤ vec_len kept.old + 1 }
{
    let opened = Snapshot::of(&reading);
    match L::hand_on(alloc, reading) {
        Ok((closing, lease)) => {
            kept.push_reserved(KeptRead {
                opened,
                closing,
                taken,
            });
            Ok(lease)
        }
        Err(_) => Err(NoMemory),
    }
}
