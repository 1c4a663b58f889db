//! A buffer that a transaction shows on a layer, with its lease, and a look at whether its write
//! has ended.
use crate::lease::Lease;
use sf_base::{Fence, LayerId};
use sf_layer::Shown;
use std::marker::Model;

/// A buffer that a transaction shows on a layer. What is shown names the picture that the lease
/// expects, with a crop inside it.
#[derive(Drop)]
pub struct BufferOp<L: Lease> {
    pub layer: LayerId,
    pub shown: Shown,
    /// The acquire fence that the producer named.
    pub fence: Fence,
    /// The right to read the pixels.
    pub lease: L,
}

impl<L: Lease> Model for BufferOp<L> {
    ghost use Rattle.sf_txn.specs.Buffers.{Buffer, Shows};

    ghost Value = { Buffer L };

    ghost view = { λ b. record { layer = b.layer; shown = b.shown; fence = b.fence; lease = b.lease } };

    ghost invariant = { λ b. Shows b.shown (L.picture b.lease) };
}

impl<L: Lease> BufferOp<L> {
    ghost use Rattle.std.specs.Prelude.{◌≡◌, [], ◌↔◌, IsTrue};
    ghost use Rattle.sf_txn.specs.Leases.{IsEyeAfter, IsLookedBuffer, IsShownTo};

    /// Whether the write of the buffer has ended, as one look of its lease through the eye shows
    /// it: exactly where the eye knows it then. The eye fits the lease.
    pub fn look(&mut self, eye: &mut L::Eye) -> bool
        requires { L.fits (L.mark eye.old) self.old.lease }
        ensures shown { L.shown self.new.lease ≡ result }
        ensures known { IsTrue result ↔ L.knows eye.new self.new.lease }
        ensures looked { IsLookedBuffer L.Lease self.old self.new }
        ensures told { IsShownTo L.Lease eye.old eye.new self.new.lease }
        ensures eye { IsEyeAfter L.Lease eye.old eye.new [] }
    {
        self.lease.drawn(eye)
    }
}
