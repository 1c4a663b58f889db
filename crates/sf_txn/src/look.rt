//! A look at all buffers of a transaction, which a vsync makes before it decides.
ghost use Rattle.std.specs.List.{All, AllZip};
ghost use Rattle.std.specs.Prelude.{◌≡◌, ◌+◌, ◌++◌, ◌≤◌, [], length, map};
ghost use Rattle.std.specs.Vec.{vec_capacity, vec_len};
ghost use Rattle.sf_txn.specs.Leases.{IsEyeAfter, IsLookedBuffer, IsShownTo};

use crate::buffer::BufferOp;
use crate::lease::Lease;
use crate::transaction::Transaction;

/// Looks once at each buffer, in order, and appends what each look showed.
fn look_all<L: Lease>(buffers: &mut [BufferOp<L>], eye: &mut L::Eye, drawn: &mut Vec<bool>)
    requires fits { All (λ buffer. L.fits (L.mark eye.old) buffer.lease) buffers.old }
    requires room { vec_len drawn.old + length buffers.old ≤ vec_capacity drawn.old }
    ensures looked { AllZip (IsLookedBuffer L.Lease) buffers.old buffers.new }
    ensures told { All (λ buffer. IsShownTo L.Lease eye.old eye.new buffer.lease) buffers.new }
    ensures drawn { drawn.new.items ≡ drawn.old.items ++ map (λ buffer. L.shown buffer.lease) buffers.new }
    ensures capacity { vec_capacity drawn.old ≤ vec_capacity drawn.new }
    ensures eye { IsEyeAfter L.Lease eye.old eye.new [] }
{
    let mut index = 0;
    while index < buffers.len() {
        let buffer = &mut buffers[index];
        let is_drawn = buffer.look(eye);
        // There is room for it.
        let _ = drawn.push(is_drawn);
        index += 1;
    }
}

impl<L: Lease + Drop> Transaction<L> {
    /// Looks once at each buffer, in order, and appends to a list with room for it what each look
    /// showed: whether the buffer's write has ended. The eye fits all leases. Nothing else of the
    /// transaction changes.
    pub fn look(&mut self, eye: &mut L::Eye, drawn: &mut Vec<bool>)
        requires fits { All (λ buffer. L.fits (L.mark eye.old) buffer.lease) self.old.buffers }
        requires room { vec_len drawn.old + length self.old.buffers ≤ vec_capacity drawn.old }
        ensures rest { self.new ≡ record self.old { buffers = self.new.buffers } }
        ensures looked { AllZip (IsLookedBuffer L.Lease) self.old.buffers self.new.buffers }
        ensures told { All (λ buffer. IsShownTo L.Lease eye.old eye.new buffer.lease) self.new.buffers }
        ensures drawn { drawn.new.items ≡ drawn.old.items ++ map (λ buffer. L.shown buffer.lease) self.new.buffers }
        ensures capacity { vec_capacity drawn.old ≤ vec_capacity drawn.new }
        ensures eye { IsEyeAfter L.Lease eye.old eye.new [] }
    {
        look_all(&mut self.buffers, eye, drawn);
    }
}
