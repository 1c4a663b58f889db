//! From a step to the call that it makes on a queue, and where the tokens of that call go.
ghost use Rattle.std.specs.Prelude.{◌≡◌, IfOk};
ghost use Rattle.sf_base.specs.Fences.{merged};
ghost use Rattle.sf_actor.specs.sf_surface.declared.call.QCall.TheVariants as call;
ghost use Rattle.sf_actor.specs.Scripts.{crop_of, fence_of};
ghost use Rattle.sf_actor_steps.specs.Forming.{ArePoints, IsCrop, attach_call, cancel_fence, joining, moving, named};

use sf_actor::{Held, Loose, Picture, Points, QCall, ReadLease, TableName, Work, WriteLease};
use sf_base::{Fence, NoMemory, QueueId, Rect, TimelineId};
use std::alloc::Global;

/// No buffer.
const NO_BUFFER: Held = Held {
    number: 0,
    width: 0,
    height: 0,
};

/// Where the tokens of a call go: what it gives where it is done, and what it hands back where it is
/// refused or not made.
#[derive(Clone, Copy)]
pub struct Homes {
    /// The name that is to hold a lent buffer, or the drawing that it leaves owed.
    pub lent: u32,
    /// The name that is to hold a frame.
    pub frame: u32,
    /// The name that is to hold a loose buffer.
    pub free: u32,
    /// The queue in which the loose buffer was last.
    pub last: QueueId,
    /// The buffer of the lease that the call brings.
    pub held: Held,
}

/// From which name a buffer goes to which.
#[derive(Clone, Copy)]
pub struct Move {
    pub from: u32,
    pub to: u32,
}

/// A call that a step makes on a queue.
pub struct Asking<B: TableName> {
    pub queue: QueueId,
    pub call: QCall<B>,
    pub homes: Homes,
}

/// A call whose tokens come under these names: leases of both kinds under the first, a loose buffer
/// under the second.
pub fn moving<B: TableName>(
    queue: QueueId,
    lease: u32,
    free: u32,
    held: Held,
    call: QCall<B>,
) -> Asking<B>
    ensures { result ≡ moving queue lease free held call }
{
    Asking {
        queue,
        call,
        homes: Homes {
            lent: lease,
            frame: lease,
            free,
            last: queue,
            held,
        },
    }
}

/// A call that brings nothing. What it gives comes under the name.
pub fn named<B: TableName>(queue: QueueId, name: u32, call: QCall<B>) -> Asking<B>
    ensures { result ≡ named queue name call }
{
    moving(queue, name, name, NO_BUFFER, call)
}

/// A call that puts a loose buffer into a queue. The lease that it gives comes under the second name.
pub fn joining<B: TableName>(
    queue: QueueId,
    free: u32,
    lease: u32,
    last: QueueId,
    call: QCall<B>,
) -> Asking<B>
    ensures { result ≡ joining queue free lease last call }
{
    Asking {
        queue,
        call,
        homes: Homes {
            lent: lease,
            frame: lease,
            free,
            last,
            held: NO_BUFFER,
        },
    }
}

/// The call that attaches a loose buffer: as a frame of the consumer's own, or as a lent buffer.
pub fn attach_call<B: TableName>(loose: Loose<B>, reads: bool) -> QCall<B>
    ensures { result ≡ attach_call reads loose }
{
    if reads {
        QCall::AttachRead(loose)
    } else {
        QCall::Attach(loose)
    }
}

/// The crop that a step names, or the whole buffer.
fn crop_of(held: Held, crop: Option<(u32, u32, u32, u32)>) -> Rect
    requires { IsCrop crop }
    ensures { result ≡ crop_of held crop }
{
    match crop {
        Some((x, y, width, height)) => Rect {
            x: x as i32,
            y: y as i32,
            width,
            height,
        },
        None => Rect {
            x: 0,
            y: 0,
            width: held.width,
            height: held.height,
        },
    }
}

/// The fence of the points that a step names.
pub fn fence_of(alloc: Global, points: &Points) -> Result<Fence, NoMemory>
    requires { ArePoints points.now }
    ensures { IfOk result (λ fence. fence ≡ fence_of points.now) }
{
    let mut fence = Fence::none();
    let mut rest = points.as_slice();
    while let [(timeline, value), later @ ..] = rest {
        fence.add(alloc, TimelineId(*timeline), *value)?;
        rest = later;
    }
    Ok(fence)
}

/// A frame of a lent buffer, with the picture that was drawn in it or is promised.
pub fn queueing<B: TableName>(
    name: u32,
    lease: WriteLease<B>,
    picture: Picture,
    time: Option<u64>,
    crop: Option<(u32, u32, u32, u32)>,
    fence: Fence,
) -> Asking<B>
    requires { IsCrop crop }
    ensures { result ≡ moving lease.queue name name lease.held (call.Queue lease picture time (crop_of lease.held crop) fence) }
{
    let held = lease.held;
    let queue = lease.queue;
    let call = QCall::Queue {
        lease,
        picture,
        time,
        crop: crop_of(held, crop),
        fence,
    };
    moving(queue, name, name, held, call)
}

/// What a lent buffer that goes back unqueued leaves to be waited for: where nothing was drawn, what
/// had to be waited for still.
fn cancel_fence(
    alloc: Global,
    work: &Work,
    mut named: Fence,
    own: &Fence,
) -> Result<Fence, NoMemory>
    ensures { IfOk result (λ fence. fence ≡ cancel_fence work.now named own.now) }
{
    match work {
        Work::Fresh(_) => named.merge(alloc, own)?,
        Work::Drawn(..) => {}
    }
    Ok(named)
}

/// A lent buffer that goes back unqueued.
pub fn cancel<B: TableName>(
    alloc: Global,
    name: u32,
    lease: WriteLease<B>,
    named: Fence,
) -> Result<Asking<B>, NoMemory>
    ensures { IfOk result (λ asking. asking ≡ moving lease.queue name name lease.held (call.Cancel lease (cancel_fence lease.work named lease.fence))) }
{
    let fence = cancel_fence(alloc, &lease.work, named, &lease.fence)?;
    let held = lease.held;
    let queue = lease.queue;
    Ok(moving(queue, name, name, held, QCall::Cancel(lease, fence)))
}

/// A frame that goes back. Its own points stay to be waited for.
pub fn release<B: TableName>(
    alloc: Global,
    name: u32,
    lease: ReadLease<B>,
    mut fence: Fence,
) -> Result<Asking<B>, NoMemory>
    ensures { IfOk result (λ asking. asking ≡ moving lease.queue name name lease.held (call.Release lease (merged fence lease.fence))) }
{
    fence.merge(alloc, &lease.fence)?;
    let held = lease.held;
    let queue = lease.queue;
    Ok(moving(queue, name, name, held, QCall::Release(lease, fence)))
}
