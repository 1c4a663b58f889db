//! The steps of an actor, one form for each line that an actor can have.
use crate::change::Change;
use crate::points::Points;
use sf_base::Items;

/// A step of an actor: the words of its form, in order. Where a field is a name, it is the place,
/// from 0 and below 32, that the name has among the actor's names in the order of their first use.
/// A part of a form that may be absent is an `Option`.
pub enum Step {
    /// The actor connects to a queue, as its producer.
    Connect(u32),
    /// The actor disconnects from a queue.
    Disconnect(u32),
    /// How many buffers of a queue its producer may hold at once.
    MaxDequeued(u32, u32),
    /// Whether a queue is asynchronous: a frame that was not acquired is replaced by a later one.
    Async(u32, bool),
    /// A dequeue from a queue: under this name stands what it gives. The width and height are in
    /// pixels, where 0 is the queue's default; without them both are 0.
    Dequeue(u32, u32, Option<(u32, u32)>),
    /// A dequeue that is tried again where the queue has no buffer to give yet.
    DequeueWait(u32, u32, Option<(u32, u32)>),
    /// A request of the buffer that this name holds.
    Request(u32),
    /// The picture with this number is painted into the buffer that this name holds.
    Draw(u32, u32),
    /// The buffer that this name holds is queued, with this picture promised in it: the time at
    /// which it is to be shown, in nanoseconds, the part of it that shows (corner, width and
    /// height), and the points of its acquire fence.
    Queue(u32, u32, Option<u64>, Option<(u32, u32, u32, u32)>, Points),
    /// The buffer that this name holds goes back unqueued, once these points are reached.
    Cancel(u32, Points),
    /// The buffer that the first name holds leaves its queue: under the second name it stands loose.
    PDetach(u32, u32),
    /// The loose buffer under the first name joins a queue: under the second name its producer
    /// holds it.
    PAttach(u32, u32, u32),
    /// How many buffers of a queue its consumer may hold at once.
    MaxAcquired(u32, u32),
    /// A queue is abandoned by its consumer.
    Abandon(u32),
    /// An acquire from a queue: under this name stands what it gives. The time at which it is to be
    /// shown is in nanoseconds.
    Acquire(u32, u32, Option<u64>),
    /// A release of the item that this name holds, once these points are reached.
    Release(u32, Points),
    /// The item that the first name holds leaves its queue: under the second name its buffer
    /// stands loose.
    CDetach(u32, u32),
    /// The loose buffer under the first name joins a queue: under the second name its consumer
    /// holds it.
    CAttach(u32, u32, u32),
    /// A timeline is raised to this value.
    Signal(u32, u64),
    /// A wait until a timeline has reached this value.
    Wait(u32, u64),
    /// An empty transaction under this number, 1 to 64.
    Tx(u32),
    /// The time before which a transaction does not commit, in nanoseconds.
    Desire(u32, u64),
    /// An item becomes the buffer of a layer in a transaction: the transaction's number, the
    /// layer's number, and the name that holds the item.
    Buffer(u32, u32, u32),
    /// A transaction does not commit before a buffer of this layer did with at least this frame
    /// number: the transaction's number, the layer's number, and the frame number.
    Barrier(u32, u32, u64),
    /// The second transaction's content goes behind that of the first.
    Merge(u32, u32),
    /// A transaction arrives: its number, and its apply token, from 1 on.
    Apply(u32, u32),
    /// A change of a layer in a transaction: the transaction's number, the layer's number from 1
    /// on, and the change.
    Set(u32, u32, Change),
}

/// An actor and its steps, which it does in this order.
pub struct ActorScript {
    /// 1 to 16 in version 1, and 1 to 64 in version 2.
    pub number: u32,
    /// At most 4,096.
    pub steps: Items<Step>,
}

impl Drop for ActorScript {
    fn drop(self) {
        let ActorScript {
            number: _,
            steps: _,
        } = self;
    }
}

impl Drop for Step {
    fn drop(self) {
        match self {
            Step::Connect(_) => {}
            Step::Disconnect(_) => {}
            Step::MaxDequeued(_, _) => {}
            Step::Async(_, _) => {}
            Step::Dequeue(_, _, _) => {}
            Step::DequeueWait(_, _, _) => {}
            Step::Request(_) => {}
            Step::Draw(_, _) => {}
            Step::Queue(_, _, _, _, _) => {}
            Step::Cancel(_, _) => {}
            Step::PDetach(_, _) => {}
            Step::PAttach(_, _, _) => {}
            Step::MaxAcquired(_, _) => {}
            Step::Abandon(_) => {}
            Step::Acquire(_, _, _) => {}
            Step::Release(_, _) => {}
            Step::CDetach(_, _) => {}
            Step::CAttach(_, _, _) => {}
            Step::Signal(_, _) => {}
            Step::Wait(_, _) => {}
            Step::Tx(_) => {}
            Step::Desire(_, _) => {}
            Step::Buffer(_, _, _) => {}
            Step::Barrier(_, _, _) => {}
            Step::Merge(_, _) => {}
            Step::Apply(_, _) => {}
            Step::Set(_, _, _) => {}
        }
    }
}
