//! The tokens that carry the right to a buffer's pixels: to write a lent buffer, to draw what was
//! promised, to read a frame, a buffer in no queue, and a drawing that is about to leave.
use crate::work::Work;
use sf_base::{Fence, QueueId, Rect, SlotId};
use sf_slots::Held;
use sf_turns::sf_picture::Painted;
use sf_turns::{Busy, Owed, TableName, Turn};
use std::marker::{Model, PhantomData};

/// A buffer that is lent to its producer. Its size is 1 x 1 to 512 x 512, the right to its pixels is
/// of the table `B` and expects a picture of that size, and what was drawn in it has that size.
#[derive(Drop)]
pub struct WriteLease<B: TableName> {
    /// The queue that lent it.
    pub queue: QueueId,
    pub slot: SlotId,
    pub held: Held,
    /// Whether the producer knows the buffer.
    pub requested: bool,
    /// What has to be signalled before it is drawn.
    pub fence: Fence,
    pub work: Work,
    pub(crate) of: PhantomData<B>,
}

impl<B: TableName> Model for WriteLease<B> {
    ghost use Rattle.sf_surface.specs.Tokens.{WriteLeaseOf, IsWriteLease};

    ghost Value = { WriteLeaseOf };

    ghost view = { λ l. record { queue = l.queue; slot = l.slot; held = l.held; requested = l.requested; fence = l.fence; work = l.work } };

    ghost invariant = { λ l. IsWriteLease B.table (record {
      queue = l.queue;
      slot = l.slot;
      held = l.held;
      requested = l.requested;
      fence = l.fence;
      work = l.work;
    }) };
}

/// A drawing that was promised to a queued frame and is not done yet. The right expects a picture of
/// the size of the promised one.
#[derive(Drop)]
pub struct Owing<B: TableName> {
    pub queue: QueueId,
    pub slot: SlotId,
    pub frame: u64,
    /// What has to be signalled before it is drawn.
    pub fence: Fence,
    pub turn: Owed<Painted>,
    pub(crate) of: PhantomData<B>,
}

impl<B: TableName> Model for Owing<B> {
    ghost use Rattle.sf_surface.specs.Tokens.{OwingOf, IsOwing};

    ghost Value = { OwingOf };

    ghost view = { λ o. record { queue = o.queue; slot = o.slot; frame = o.frame; fence = o.fence; turn = o.turn } };

    ghost invariant = { λ o. IsOwing B.table (record { queue = o.queue; slot = o.slot; frame = o.frame; fence = o.fence; turn = o.turn }) };
}

/// A frame that its consumer holds, or, where the frame's number is 0, a buffer of the consumer's
/// own. The right to read its pixels expects the frame's picture, in which the crop lies.
#[derive(Drop)]
pub struct ReadLease<B: TableName> {
    pub queue: QueueId,
    pub slot: SlotId,
    pub frame: u64,
    pub held: Held,
    /// The number of the frame's picture.
    pub picture: u32,
    /// The part of the picture to show.
    pub crop: Rect,
    /// The points that its producer named: with the end of the write, its acquire fence.
    pub fence: Fence,
    pub turn: Turn<Painted>,
    pub(crate) of: PhantomData<B>,
}

impl<B: TableName> Model for ReadLease<B> {
    ghost use Rattle.sf_surface.specs.Tokens.{ReadLeaseOf, IsReadLease};

    ghost Value = { ReadLeaseOf };

    ghost view = { λ l. record {
      queue = l.queue;
      slot = l.slot;
      frame = l.frame;
      held = l.held;
      picture = l.picture;
      crop = l.crop;
      fence = l.fence;
      turn = l.turn;
    } };

    ghost invariant = { λ l. IsReadLease B.table (record {
      queue = l.queue;
      slot = l.slot;
      frame = l.frame;
      held = l.held;
      picture = l.picture;
      crop = l.crop;
      fence = l.fence;
      turn = l.turn;
    }) };
}

/// A buffer that is in no queue, with the right to its pixels.
#[derive(Drop)]
pub struct Loose<B: TableName> {
    pub held: Held,
    pub turn: Turn<Painted>,
    pub(crate) of: PhantomData<B>,
}

impl<B: TableName> Model for Loose<B> {
    ghost use Rattle.sf_surface.specs.Tokens.{LooseOf, IsLoose};

    ghost Value = { LooseOf };

    ghost view = { λ l. record { held = l.held; turn = l.turn } };

    ghost invariant = { λ l. IsLoose B.table (record { held = l.held; turn = l.turn }) };
}

/// A drawing that is done and has yet to leave. It can't be dropped: it must end.
pub struct Ending<B: TableName> {
    pub turn: Busy<Painted>,
    pub pixels: Painted,
    pub(crate) of: PhantomData<B>,
}

impl<B: TableName> Model for Ending<B> {
    ghost use Rattle.sf_surface.specs.Tokens.{EndingOf, IsEnding};

    ghost Value = { EndingOf };

    ghost view = { λ e. record { turn = e.turn; pixels = e.pixels } };

    ghost invariant = { λ e. IsEnding B.table (record { turn = e.turn; pixels = e.pixels }) };
}
