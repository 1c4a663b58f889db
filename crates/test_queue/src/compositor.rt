//! A compositor that shows frames of the queue on a layer, and can lend their pixels.
ghost use Rattle.std.specs.Prelude.{◌≡◌, ◌≢◌, ◌<◌, ◌-◌, ◌^◌, true, false};

use crate::answer::Answer;
use crate::tools::Left;
use sf_base::{ActorId, LayerId, NoMemory, Seen};
use sf_commit::{Contents, Handler, Vsync};
use sf_layer::{Kind, Op, Parent, Shown};
use sf_picture::Painted;
use sf_surface::{Gives, ReadLease};
use sf_token::Arrived;
use sf_turns::{TableName, TurnSeat};
use sf_txn::{BufferOp, Transaction};
use std::alloc::Global;

/// The layer that shows frames.
const LAYER: LayerId = LayerId(1);

/// A compositor with a display of 4 x 1, its seat at the turns, and the pixels that it lent.
pub struct Compositor<B: TableName> {
    alloc: Global,
    handler: Handler<ReadLease<B>>,
    seat: TurnSeat<Painted>,
    lent: Option<Contents>,
    /// How many transactions it took.
    count: u32,
    ghost own: { seat.table ≡ B.table },
    ghost lends: { handler.lent ≡ lent },
    ghost last: { handler.is_spent ≡ false → handler.last ≡ count },
}

/// A transaction that shows a frame on the layer, which it creates if it is the first one.
fn showing<B: TableName>(
    alloc: Global,
    is_first: bool,
    lease: ReadLease<B>,
) -> Result<Transaction<ReadLease<B>>, NoMemory>
    requires { lease.frame ≢ 0 }
{
    let mut txn = Transaction::new(alloc);
    if is_first {
        txn.set(LAYER, Op::Create(Kind::Buffer, Parent::Root))?;
    }
    let fence = lease.fence.copy(alloc)?;
    let buffer = BufferOp {
        layer: LAYER,
        shown: Shown {
            queue: lease.queue,
            frame: lease.frame,
            picture: lease.picture,
            crop: lease.crop,
        },
        fence,
        lease,
    };
    match txn.set_buffer(buffer) {
        Ok(_) => Ok(txn),
        Err(_) => Err(NoMemory),
    }
}

/// What a vsync committed, with the last frame that it released.
fn left<B: TableName>(vsync: Vsync<ReadLease<B>>) -> Left<B> {
    let committed = vsync.commits.len();
    match vsync.releases.into_vec().pop() {
        Some(release) => (
            Gives::Read(release.lease),
            Answer::Vsync(committed, Some((release.queue, release.frame))),
        ),
        None => (Gives::Nothing, Answer::Vsync(committed, None)),
    }
}

impl<B: TableName> Compositor<B> {
    /// A compositor that shows nothing, with a seat that is split off the first one.
    pub fn new(alloc: Global, first: &mut TurnSeat<Painted>) -> Result<Compositor<B>, NoMemory>
        requires first { first.old.is_first ≡ true }
        requires own { first.old.table ≡ B.table }
        ensures { first.new.table ≡ B.table }
    {
        let seat = first.split()?;
        Ok(Compositor {
            alloc,
            handler: Handler::new(alloc, 4, 1)?,
            seat,
            lent: None,
            count: 0,
        })
    }

    /// A vsync that takes this transaction.
    fn vsync(&mut self, txn: Transaction<ReadLease<B>>, seen: &Seen) -> Option<Vsync<ReadLease<B>>>
        requires { self.old.count < 2 ^ 32 - 1 }
    {
        let number = self.count + 1;
        let arrived = Arrived {
            number,
            actor: ActorId(1),
            step: number,
            txn,
        };
        let Ok(arrived) = vec![in self.alloc; arrived] else {
            return None;
        };
        let made = self.handler.vsync(&mut self.seat, arrived, seen, 0);
        self.count = number;
        match made {
            Ok(vsync) => Some(vsync),
            Err(_) => None,
        }
    }

    /// A vsync at which a transaction shows this frame of a queue on the layer, once its write has
    /// ended. What it releases is left.
    pub fn show(&mut self, token: Gives<B>, seen: &Seen) -> Left<B> {
        if self.count == u32::MAX {
            return (token, Answer::Plain("no number left"));
        }
        let lease = match token {
            Gives::Read(lease) if lease.frame != 0 => lease,
            token => return (token, Answer::Plain("no such token")),
        };
        let Ok(txn) = showing(self.alloc, self.count == 0, lease) else {
            return (Gives::Nothing, Answer::Plain("out of memory"));
        };
        match self.vsync(txn, seen) {
            Some(vsync) => left(vsync),
            None => (Gives::Nothing, Answer::Plain("out of memory")),
        }
    }

    /// Lends the pixels of what the layer shows.
    pub fn lend(&mut self) -> Answer {
        if self.lent.is_some() {
            return Answer::Plain("lent already");
        }
        self.lent = Some(self.handler.lend());
        Answer::Plain("lent")
    }

    /// Takes the pixels back, and returns what the layer shows then.
    pub fn give_back(&mut self) -> Answer {
        let Some(contents) = self.lent.take() else {
            return Answer::Plain("not lent");
        };
        self.handler.give_back(&mut self.seat, contents);
        match self.handler.contents() {
            [] => Answer::Plain("given back, no picture"),
            [shown] => Answer::Picture(shown.picture().number),
            _ => Answer::Plain("given back, several pictures"),
        }
    }
}

impl<B: TableName> Drop for Compositor<B> {
    // What it lent is given back first.
    fn drop(self) {
        let Compositor {
            alloc: _,
            mut handler,
            mut seat,
            lent,
            count: _,
        } = self;
        if let Some(contents) = lent {
            handler.give_back(&mut seat, contents);
        }
        handler.finish();
    }
}
