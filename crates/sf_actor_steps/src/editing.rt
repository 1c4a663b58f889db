//! The steps that fill, merge and send transactions: frames leave an actor's names here for the
//! compositor.
ghost use Rattle.std.specs.Prelude.{◌≡◌, ◌≢◌, ◌≤◌, true, IfOk, OnOk};
ghost use Rattle.std.specs.List.{All};
ghost use Rattle.sf_actor.specs.Desks.{has_queue};
ghost use Rattle.sf_actor.specs.Scripts.{op_of, parent_of};
ghost use Rattle.sf_actor_steps.specs.Editing.{IsThere, Releases, ReleasesAll, buffer_with};

use crate::bindings::Bindings;
use crate::calling::leave;
use crate::tried::Tried;
use sf_actor::{
    BufferOp, CallFault, Change, Desk, Kind, Op, Parent, QCall, QReply, ReadLease, Shown,
    TableName, TokensOf, Transaction,
};
use sf_base::{ActorId, Fence, LayerId, NoMemory, Rect, TokenId};
use std::alloc::Global;

/// The parent that a change names.
fn parent_of(number: Option<u32>) -> Parent
    ensures { result ≡ parent_of number }
{
    match number {
        None => Parent::Nothing,
        Some(0) => Parent::Root,
        Some(layer) => Parent::Layer(LayerId(layer)),
    }
}

/// The operation that a change means.
fn op_of(change: Change) -> Op
    ensures { result ≡ op_of change }
{
    match change {
        Change::CreateContainer(parent) => Op::Create(Kind::Container, parent_of(parent)),
        Change::CreateColour(parent) => Op::Create(Kind::Colour, parent_of(parent)),
        Change::CreateBuffer(parent) => Op::Create(Kind::Buffer, parent_of(parent)),
        Change::Destroy => Op::Destroy,
        Change::Reparent(parent) => Op::Reparent(parent_of(parent)),
        Change::Z(z) => Op::Z(z),
        Change::Relative(layer, z) => Op::Relative(LayerId(layer), z),
        Change::Position(x, y) => Op::Position(x, y),
        Change::Crop(x, y, width, height) => Op::Crop(Some(Rect {
            x,
            y,
            width,
            height,
        })),
        Change::CropNone => Op::Crop(None),
        Change::Alpha(alpha) => Op::Alpha(alpha),
        Change::Hidden(on) => Op::Hidden(on),
        Change::Opaque(on) => Op::Opaque(on),
        Change::Colour(colour) => Op::Colour(colour),
        Change::Backpressure(on) => Op::Backpressure(on),
        Change::Orient(orient) => Op::Orient(orient),
    }
}

/// A frame as a buffer of a transaction, on a layer. A queue showed the frame.
fn buffer_of<B: TableName>(
    alloc: Global,
    layer: u32,
    lease: ReadLease<B>,
) -> Result<BufferOp<ReadLease<B>>, NoMemory>
    requires { lease.frame ≢ 0 }
    ensures { IfOk result (λ buffer. buffer ≡ buffer_with layer lease) }
{
    let fence = lease.fence.copy(alloc)?;
    Ok(BufferOp {
        layer: LayerId(layer),
        shown: Shown {
            queue: lease.queue,
            frame: lease.frame,
            picture: lease.picture,
            crop: lease.crop,
        },
        fence,
        lease,
    })
}

/// Gives back a frame whose place another took. Where its queue refuses that, it is let go.
fn release_overtaken<B: TableName, D: Desk<TokensOf<B>>>(
    alloc: Global,
    desk: &mut D,
    by: ActorId,
    step_number: u32,
    lease: ReadLease<B>,
) -> Result<(), NoMemory>
    requires served { (D.home desk.old).serves by.0 ≡ true }
    requires there { has_queue (D.home desk.old) lease.queue.0 ≡ true }
    ensures releases { OnOk result (Releases (D.home desk.old) by.0 step_number lease (D.view desk.old) (D.view desk.new)) }
    ensures home { D.home desk.new ≡ D.home desk.old }
{
    let queue = lease.queue;
    let mut fence = Fence::none();
    fence.merge(alloc, &lease.fence)?;
    match desk.call(by, queue, step_number, QCall::Release(lease, fence)) {
        Ok(reply) => {
            let QReply {
                status: _status,
                values: _values,
                gives,
                ends,
                spare: _spare,
            } = reply;
            drop(gives);
            leave(desk, ends);
            Ok(())
        }
        Err(CallFault::NotYet(_)) => unreachable!(),
        Err(CallFault::NoMemory(call)) => {
            drop(call);
            Err(NoMemory)
        }
    }
}

/// Gives back the frames of buffers whose places others took.
fn release_all<B: TableName, D: Desk<TokensOf<B>>>(
    alloc: Global,
    desk: &mut D,
    by: ActorId,
    step_number: u32,
    replaced: Vec<BufferOp<ReadLease<B>>>,
) -> Result<(), NoMemory>
    requires served { (D.home desk.old).serves by.0 ≡ true }
    requires there { All (IsThere (D.home desk.old)) replaced.items }
    ensures releases { OnOk result (ReleasesAll (D.home desk.old) by.0 step_number replaced.items (D.view desk.old) (D.view desk.new)) }
    ensures home { D.home desk.new ≡ D.home desk.old }
{
    for buffer in replaced {
        release_overtaken(alloc, desk, by, step_number, buffer.lease)?;
    }
    Ok(())
}

impl<B: TableName> Bindings<B> {
    ghost use Rattle.std.specs.Prelude.{◌≡◌, ◌≢◌, ◌≤◌, ◌++◌, ◌∷◌, [], true, IfOk, None, Some, get_or, is_some};
    ghost use Rattle.sf_actor.specs.sf_layer.Ranges.{IsOperation};
    ghost use Rattle.sf_actor.specs.sf_txn.Transactions.{empty, set};
    ghost use Rattle.sf_actor.specs.Scripts.{layer_of, op_of};
    ghost use Rattle.sf_actor_steps.specs.Editing.{AreThere, Edits, HoldsShown, IfDone, Merges, Shows, TakesTxn, TriesSend, with_txn};
    ghost use Rattle.sf_actor_steps.specs.declared.tried.Tried.TheVariants as tried;

    /// Takes the transaction that a number holds.
    fn take_transaction(&mut self, number: u32) -> Transaction<ReadLease<B>>
        requires { is_some (get_or self.old.transactions number None) ≡ true }
        ensures { TakesTxn self.old self.new number result }
    {
        match self.transactions.take(number) {
            Some(transaction) => transaction,
            None => unreachable!(),
        }
    }

    /// Lets a number hold an empty transaction.
    pub fn begin(&mut self, number: u32) -> Tried
        ensures own { result ≡ tried.Own 0 }
        ensures begun { self.new ≡ with_txn self.old number (Some empty) }
    {
        self.transactions.put(number, Transaction::new(self.alloc));
        Tried::Own(0)
    }

    /// Sets when a transaction is to be shown.
    pub fn desire(&mut self, number: u32, time: u64) -> Tried
        requires { is_some (get_or self.old.transactions number None) ≡ true }
        ensures own { result ≡ tried.Own 0 }
        ensures edits { Edits self.old self.new number (λ txn. record txn { desired = Some time }) }
    {
        let mut transaction = self.take_transaction(number);
        transaction.desire(time);
        self.transactions.put(number, transaction);
        Tried::Own(0)
    }

    /// Lets a transaction wait for a frame of a layer.
    pub fn wait_for(&mut self, number: u32, layer: u32, frame: u64) -> Result<Tried, NoMemory>
        requires { is_some (get_or self.old.transactions number None) ≡ true }
        ensures { IfDone result (Edits self.old self.new number (λ txn. record txn { barriers = txn.barriers ++ (layer_of layer, frame) ∷ [] })) }
    {
        let mut transaction = self.take_transaction(number);
        transaction.add_barrier(LayerId(layer), frame)?;
        self.transactions.put(number, transaction);
        Ok(Tried::Own(0))
    }

    /// Changes a layer in a transaction.
    pub fn set(&mut self, number: u32, layer: u32, change: Change) -> Result<Tried, NoMemory>
        requires there { is_some (get_or self.old.transactions number None) ≡ true }
        requires operation { IsOperation (layer_of layer, op_of change) }
        ensures { IfDone result (Edits self.old self.new number (λ txn. set txn (layer_of layer, op_of change))) }
    {
        let mut transaction = self.take_transaction(number);
        transaction.set(LayerId(layer), op_of(change))?;
        self.transactions.put(number, transaction);
        Ok(Tried::Own(0))
    }

    /// Moves a frame into a transaction. The one whose place it takes is released.
    pub fn show<D: Desk<TokensOf<B>>>(
        &mut self,
        desk: &mut D,
        step_number: u32,
        number: u32,
        layer: u32,
        name: u32,
    ) -> Result<Tried, NoMemory>
        requires served { (D.home desk.old).serves self.old.by.0 ≡ true }
        requires there { is_some (get_or self.old.transactions number None) ≡ true }
        requires shown { HoldsShown (get_or self.old.names name None) }
        requires layer { 1 ≤ layer }
        requires queues { AreThere (D.home desk.old) (get_or self.old.transactions number None) }
        ensures shows { IfDone result (Shows (D.home desk.old) self.old.by.0 step_number number layer name
            self.old self.new (D.view desk.old) (D.view desk.new)) }
        ensures home { D.home desk.new ≡ D.home desk.old }
    {
        let lease = self.take_frame(name);
        let buffer = buffer_of(self.alloc, layer, lease)?;
        let mut transaction = self.take_transaction(number);
        let Ok(replaced) = transaction.set_buffer(buffer) else {
            return Err(NoMemory);
        };
        self.transactions.put(number, transaction);
        if let Some(buffer) = replaced {
            release_overtaken(self.alloc, desk, self.by, step_number, buffer.lease)?;
        }
        Ok(Tried::Own(0))
    }

    /// Merges a transaction into another, and leaves it empty. The frames whose places others take
    /// are released.
    pub fn merge<D: Desk<TokensOf<B>>>(
        &mut self,
        desk: &mut D,
        step_number: u32,
        number: u32,
        other: u32,
    ) -> Result<Tried, NoMemory>
        requires served { (D.home desk.old).serves self.old.by.0 ≡ true }
        requires there { is_some (get_or self.old.transactions number None) ≡ true }
        requires other_there { is_some (get_or self.old.transactions other None) ≡ true }
        requires apart { other ≢ number }
        requires queues { AreThere (D.home desk.old) (get_or self.old.transactions number None) }
        requires other_queues { AreThere (D.home desk.old) (get_or self.old.transactions other None) }
        ensures merges { IfDone result (Merges (D.home desk.old) self.old.by.0 step_number number other
            self.old self.new (D.view desk.old) (D.view desk.new)) }
        ensures home { D.home desk.new ≡ D.home desk.old }
    {
        let transaction = self.take_transaction(number);
        let merged = self.take_transaction(other);
        let Ok((transaction, replaced)) = transaction.merge(merged) else {
            return Err(NoMemory);
        };
        self.transactions.put(number, transaction);
        self.transactions.put(other, Transaction::new(self.alloc));
        release_all(self.alloc, desk, self.by, step_number, replaced)?;
        Ok(Tried::Own(0))
    }

    /// Sends a transaction under an apply token.
    pub fn send<D: Desk<TokensOf<B>>>(
        &mut self,
        desk: &mut D,
        step_number: u32,
        number: u32,
        token: u32,
    ) -> Result<Tried, NoMemory>
        requires served { (D.home desk.old).serves self.old.by.0 ≡ true }
        requires there { is_some (get_or self.old.transactions number None) ≡ true }
        ensures tries { IfOk result (TriesSend (D.home desk.old) self.old.by.0 step_number number token self.old self.new (D.view desk.old) (D.view desk.new)) }
        ensures home { D.home desk.new ≡ D.home desk.old }
    {
        let mut transaction = self.take_transaction(number);
        transaction.address(TokenId(token));
        match desk.send(self.by, step_number, transaction) {
            Ok(arrival) => Ok(Tried::Sent(arrival)),
            Err(_) => Err(NoMemory),
        }
    }
}
