//! The turn that follows a lease's: what a queued, cancelled or detached buffer is left with for
//! its next holder.
ghost use Rattle.std.specs.Prelude.{◌≡◌, false, IfOk, IfErr};
ghost use Rattle.sf_turns.specs.Views.{heir_expecting};
ghost use Rattle.sf_surface.specs.Calls.{shows_other};
ghost use Rattle.sf_surface.specs.inner.Rights.{owed_of};
ghost use Rattle.sf_surface.specs.Tokens.{IsRightOf, turn_of, turn_after, ending_of, ending_drawn};

use crate::lent::parts_of;
use crate::token::{Ending, WriteLease};
use crate::work::Work;
use sf_base::{Fence, NoMemory, SlotId};
use sf_slots::Held;
use sf_turns::sf_picture::{Painted, Picture};
use sf_turns::{Owed, TableName, Turn};
use std::alloc::Global;
use std::marker::PhantomData;

/// The right that follows a lease's and expects a picture, and what is left of the lease: its slot
/// and its fence, and a drawing that is owed or one that ends.
pub(crate) struct Promised<B: TableName> {
    pub(crate) slot: SlotId,
    pub(crate) fence: Fence,
    pub(crate) heir: Turn<Painted>,
    pub(crate) owed: Option<Owed<Painted>>,
    pub(crate) ends: Option<Ending<B>>,
}

/// The right that follows a lease's, its buffer, and the drawing that ends.
pub(crate) struct Finished<B: TableName> {
    pub(crate) held: Held,
    pub(crate) heir: Turn<Painted>,
    pub(crate) ends: Option<Ending<B>>,
}

/// The right that follows a lease's work and expects a picture, with a drawing that is owed or one
/// that ends.
struct PromisedWork<B: TableName> {
    heir: Turn<Painted>,
    owed: Option<Owed<Painted>>,
    ends: Option<Ending<B>>,
}

/// The right that follows a lease's work, and the drawing that ends.
struct FinishedWork<B: TableName> {
    heir: Turn<Painted>,
    ends: Option<Ending<B>>,
}

/// Issues the right that follows a lease's work. Out of memory hands all back.
fn promise_work<B: TableName>(
    work: Work,
    picture: Picture,
) -> Result<PromisedWork<B>, (NoMemory, Work, Picture)>
    requires table { (turn_of work).table ≡ B.table }
    requires same { shows_other work picture ≡ false }
    ensures heir { IfOk result (λ promised. promised.heir ≡ heir_expecting (turn_of work) picture) }
    ensures owed { IfOk result (λ promised. promised.owed ≡ owed_of work picture) }
    ensures ends { IfOk result (λ promised. promised.ends ≡ ending_of work picture) }
    ensures back { IfErr result (λ back. (back.1 ≡ work) × (back.2 ≡ picture)) }
{
    match work {
        Work::Fresh(turn) => match turn.issue(picture) {
            Ok((owed, heir)) => Ok(PromisedWork {
                heir,
                owed: Some(owed),
                ends: None,
            }),
            Err((no_memory, turn, picture)) => Err((no_memory, Work::Fresh(turn), picture)),
        },
        Work::Drawn(inside, pixels) => match inside.issue(picture) {
            Ok((turn, heir)) => Ok(PromisedWork {
                heir,
                owed: None,
                ends: Some(Ending {
                    turn,
                    pixels,
                    of: PhantomData,
                }),
            }),
            Err((no_memory, inside, picture)) => {
                Err((no_memory, Work::Drawn(inside, pixels), picture))
            }
        },
    }
}

/// Issues the right that follows a lease's work, where something was drawn. Out of memory hands it
/// back.
fn finish_work<B: TableName>(alloc: Global, work: Work) -> Result<FinishedWork<B>, (NoMemory, Work)>
    requires { (turn_of work).table ≡ B.table }
    ensures heir { IfOk result (λ finished. finished.heir ≡ turn_after work) }
    ensures ends { IfOk result (λ finished. finished.ends ≡ ending_drawn work) }
    ensures back { IfErr result (λ back. back.1 ≡ work) }
{
    match work {
        Work::Fresh(turn) => Ok(FinishedWork {
            heir: turn,
            ends: None,
        }),
        Work::Drawn(inside, pixels) => {
            let Ok(picture) = pixels.picture().copy(alloc) else {
                return Err((NoMemory, Work::Drawn(inside, pixels)));
            };
            match inside.issue(picture) {
                Ok((turn, heir)) => Ok(FinishedWork {
                    heir,
                    ends: Some(Ending {
                        turn,
                        pixels,
                        of: PhantomData,
                    }),
                }),
                Err((no_memory, inside, _)) => Err((no_memory, Work::Drawn(inside, pixels))),
            }
        }
    }
}

/// Issues the right to read a buffer, which expects the picture that was drawn in it or is promised.
/// Out of memory hands all back.
pub(crate) fn promise<B: TableName>(
    lease: WriteLease<B>,
    picture: Picture,
) -> Result<Promised<B>, (NoMemory, WriteLease<B>, Picture)>
    requires { shows_other lease.work picture ≡ false }
    ensures slot { IfOk result (λ promised. promised.slot ≡ lease.slot) }
    ensures fence { IfOk result (λ promised. promised.fence ≡ lease.fence) }
    ensures right { IfOk result (λ _. IsRightOf B.table lease.held (turn_of lease.work)) }
    ensures heir { IfOk result (λ promised. promised.heir ≡ heir_expecting (turn_of lease.work) picture) }
    ensures owed { IfOk result (λ promised. promised.owed ≡ owed_of lease.work picture) }
    ensures ends { IfOk result (λ promised. promised.ends ≡ ending_of lease.work picture) }
    ensures back { IfErr result (λ back. (back.1 ≡ lease) × (back.2 ≡ picture)) }
{
    let (lent, work) = parts_of(lease);
    match promise_work(work, picture) {
        Ok(PromisedWork { heir, owed, ends }) => Ok(Promised {
            slot: lent.slot,
            fence: lent.fence,
            heir,
            owed,
            ends,
        }),
        Err((no_memory, work, picture)) => Err((no_memory, lent.lease(work), picture)),
    }
}

/// The right that a lease leaves where it goes back: its own where it was not used, else the next,
/// which expects what was drawn. Out of memory hands it back.
pub(crate) fn finish<B: TableName>(
    alloc: Global,
    lease: WriteLease<B>,
) -> Result<Finished<B>, (NoMemory, WriteLease<B>)>
    ensures held { IfOk result (λ finished. finished.held ≡ lease.held) }
    ensures right { IfOk result (λ finished. IsRightOf B.table lease.held finished.heir) }
    ensures heir { IfOk result (λ finished. finished.heir ≡ turn_after lease.work) }
    ensures ends { IfOk result (λ finished. finished.ends ≡ ending_drawn lease.work) }
    ensures back { IfErr result (λ back. back.1 ≡ lease) }
{
    let (lent, work) = parts_of(lease);
    match finish_work(alloc, work) {
        Ok(FinishedWork { heir, ends }) => Ok(Finished {
            held: lent.held,
            heir,
            ends,
        }),
        Err((no_memory, work)) => Err((no_memory, lent.lease(work))),
    }
}
