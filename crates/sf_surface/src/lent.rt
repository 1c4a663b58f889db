//! A lease to write in two parts: what it says of its buffer, and how far its work has come.
ghost use Rattle.std.specs.Prelude.{◌≡◌};
ghost use Rattle.sf_surface.specs.inner.Lent.{lease_with, lent_of};
ghost use Rattle.sf_surface.specs.Tokens.{IsWriteLease};

use crate::token::WriteLease;
use crate::work::Work;
use sf_base::{Fence, QueueId, SlotId};
use sf_slots::Held;
use sf_turns::TableName;
use std::marker::PhantomData;

/// What a lease to write says of its buffer.
#[derive(Drop)]
pub(crate) struct LentBuffer {
    pub(crate) queue: QueueId,
    pub(crate) slot: SlotId,
    pub(crate) held: Held,
    pub(crate) requested: bool,
    pub(crate) fence: Fence,
}

impl LentBuffer {
    /// The lease of the buffer, with its work.
    pub(crate) fn lease<B: TableName>(self, work: Work) -> WriteLease<B>
        requires { IsWriteLease B.table (lease_with self work) }
        ensures { result ≡ lease_with self work }
    {
        let LentBuffer {
            queue,
            slot,
            held,
            requested,
            fence,
        } = self;
        WriteLease {
            queue,
            slot,
            held,
            requested,
            fence,
            work,
            of: PhantomData,
        }
    }
}

/// A lease in its two parts.
pub(crate) fn parts_of<B: TableName>(lease: WriteLease<B>) -> (LentBuffer, Work)
    ensures lent { result.0 ≡ lent_of lease }
    ensures work { result.1 ≡ lease.work }
    ensures keeps { IsWriteLease B.table lease }
{
    let WriteLease {
        queue,
        slot,
        held,
        requested,
        fence,
        work,
        of: _,
    } = lease;
    let lent = LentBuffer {
        queue,
        slot,
        held,
        requested,
        fence,
    };
    (lent, work)
}
