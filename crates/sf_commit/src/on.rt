//! A buffer on a layer: its lease, as a transaction brought it or as it is read, and where its
//! pixels are.
use sf_base::{Fence, LayerId};
use sf_commit_next::{BufferOp, Lease};
use sf_view::sf_layer::Shown;
use sf_view::sf_picture::Painted;
use std::marker::Model;

/// The pixels that were taken out of a buffer, which the compositor reads.
#[derive(Drop)]
pub(crate) enum TakenPixels {
    /// They are at hand.
    Here(Painted),
    /// They are lent, at this place among those that are.
    Lent(usize),
}

/// How the compositor has the pixels of a buffer on a layer.
#[derive(Drop)]
pub(crate) enum Pixels<L: Lease> {
    /// They were taken out when the buffer was first shown.
    Read(L::Reading, TakenPixels),
    /// A transaction of this vsync brought the right to them, behind this acquire fence.
    Brought(Fence, L),
}

/// A buffer on a layer.
#[derive(Drop)]
pub(crate) struct OnLayer<L: Lease> {
    pub layer: LayerId,
    pub shown: Shown,
    pub pixels: Pixels<L>,
}

impl<L: Lease> Model for OnLayer<L> {
    ghost use Rattle.sf_commit.specs.Inside.{IsOn, on_of};
    ghost use Rattle.sf_commit.specs.OnLayers.{OnLayer};

    ghost Value = { OnLayer L };

    ghost view = { λ s. on_of L.Lease s.layer s.shown s.pixels };

    ghost invariant = { λ s. IsOn L.Lease s.shown s.pixels };
}

impl<L: Lease> OnLayer<L> {
    ghost use Rattle.std.specs.Prelude.{◌≡◌};
    ghost use Rattle.sf_commit.specs.OnLayers.{brought};

    /// A buffer as a transaction brings it.
    pub fn brought(buffer: BufferOp<L>) -> OnLayer<L>
        ensures { result ≡ brought buffer }
    {
        let BufferOp {
            layer,
            shown,
            fence,
            lease,
        } = buffer;
        OnLayer {
            layer,
            shown,
            pixels: Pixels::Brought(fence, lease),
        }
    }
}
