//! The arrivals of transactions as an object whose calls have a history: clients send, and the
//! compositor takes what came since it last did.
ghost use Rattle.std.specs.Prelude.{◌≡◌, [], IfOk, map};
ghost use Rattle.sf_token.specs.Arrivals.{entry_of, sent};

use crate::arrived::Arrived;
use crate::home::LeaseHome;
use sf_base::{ActorId, NoMemory, TokenId};
use sf_calls::{Entry, Object, Outcome};
use sf_txn::{Lease, Transaction};
use std::alloc::Global;
use std::marker::{Model, PhantomData};
use std::mem;
use std::snapshot::Snapshot;

/// How many transactions arrive at most.
const MOST_SENDS: usize = u32::MAX as usize;

/// A call on the arrivals.
#[derive(Drop)]
pub enum ArriveCall<L: Lease> {
    /// A transaction is applied at this step of its client.
    Send(u32, Transaction<L>),
    /// The compositor takes what arrived since it last did.
    Take,
}

/// What a call on the arrivals answers.
#[derive(Drop)]
pub enum ArriveReply<L: Lease> {
    /// The number of the transaction in the order of arrival, from 1.
    Number(u32),
    /// What arrived since the last `Take`, in order.
    Batch(Batch<L>),
}

/// Transactions that arrived, in order.
#[derive(Drop)]
pub struct Batch<L: Lease> {
    pub list: Vec<Arrived<L>>,
}

impl<L: Lease> Model for Batch<L> {
    ghost use Rattle.std.specs.Prelude.{List};
    ghost use Rattle.sf_token.specs.Pending.{Arrival};

    ghost Value = { List (Arrival L) };

    ghost view = { λ b. b.list.items };
}

/// Who applied a transaction, at which step, and for which token.
#[derive(Clone, Copy)]
pub struct ArrvEntry {
    pub actor: ActorId,
    pub step: u32,
    pub token: TokenId,
}

/// The transactions that arrive, in one order, with the history of the calls on them. `N` says
/// which leases they bring.
pub struct Arrivals<L: Lease, N: LeaseHome<L>> {
    alloc: Global,
    // What arrived since the last `Take`.
    waiting: Vec<Arrived<L>>,
    entries: Vec<ArrvEntry>,
    calls: Vec<Entry<Snapshot<ArriveCall<L>>, Snapshot<ArriveReply<L>>>>,
    home: PhantomData<N>,
}

impl<L: Lease, N: LeaseHome<L>> Model for Arrivals<L, N> {
    ghost use Rattle.std.specs.Prelude.{map, reverse};
    ghost use Rattle.sf_token.specs.Arrivals.{Calls, IsArrivals, made};

    ghost Value = { Calls L L.Eye L.Reading L.Closing };

    ghost view = { λ a. reverse (map made a.calls.items) };

    ghost invariant = { λ a. IsArrivals N.holds (reverse (map made a.calls.items)) a.waiting.items a.entries.items };
}

impl<L: Lease, N: LeaseHome<L>> Arrivals<L, N> {
    /// Nothing arrived yet. It takes no memory.
    pub fn new(alloc: Global) -> Result<Arrivals<L, N>, NoMemory>
        ensures { IfOk result (λ arrivals. arrivals ≡ []) }
    {
        Ok(Arrivals {
            alloc,
            waiting: Vec::new(alloc),
            entries: Vec::new(alloc),
            calls: Vec::new(alloc),
            home: PhantomData,
        })
    }

    /// The transactions that were sent, in the order in which they arrived.
    pub fn entries(&self) -> &[ArrvEntry]
        ensures { result.now ≡ map entry_of (sent self.now) }
    {
        &self.entries
    }
}

impl<L: Lease + Drop, N: LeaseHome<L>> Object for Arrivals<L, N> {
    ghost use Rattle.sf_token.specs.Arrivals.{AnswersCall, BringsHeld, GivesHeld};

    type Call = ArriveCall<L>;

    type Reply = ArriveReply<L>;

    type PlainCall = ArriveCall<L>;

    type PlainReply = ArriveReply<L>;

    type Mark = ();

    ghost history = { λ a. a };

    ghost mark = { λ a. tt };

    ghost plain_call = { λ call. call };

    ghost plain_reply = { λ reply. reply };

    ghost call_fits = { λ m call. BringsHeld N.holds call };

    ghost reply_fits = { λ m reply. GivesHeld N.holds reply };

    ghost answers = { λ m calls by call answer. AnswersCall calls by call answer };

    fn legal(&self) {
        let _ = &self.calls;
    }

    fn apply(&mut self, by: u32, call: ArriveCall<L>) -> Outcome<ArriveCall<L>, ArriveReply<L>> {
        if self.calls.reserve(1).is_err()
            || self.entries.reserve(1).is_err()
            || self.waiting.reserve(1).is_err()
        {
            return Outcome::NoMemory(call);
        }
        let asked = Snapshot::of(&call);
        match call {
            ArriveCall::Send(step, txn) if self.entries.len() < MOST_SENDS => {
                let number = self.entries.len() as u32 + 1;
                let actor = ActorId(by);
                let token = txn.token();
                self.entries.push_reserved(ArrvEntry { actor, step, token });
                let arrived = Arrived {
                    number,
                    actor,
                    step,
                    txn,
                };
                self.waiting.push_reserved(arrived);
                let reply = ArriveReply::Number(number);
                let told = Snapshot::of(&reply);
                self.calls.push_reserved(Entry {
                    by,
                    call: asked,
                    reply: told,
                });
                Outcome::Done(reply)
            }
            ArriveCall::Take => {
                let list = mem::replace(&mut self.waiting, Vec::new(self.alloc));
                let reply = ArriveReply::Batch(Batch { list });
                let told = Snapshot::of(&reply);
                self.calls.push_reserved(Entry {
                    by,
                    call: asked,
                    reply: told,
                });
                Outcome::Done(reply)
            }
            call => Outcome::NoMemory(call),
        }
    }
}

impl<L: Lease + Drop, N: LeaseHome<L>> Drop for Arrivals<L, N> {
    fn drop(self) {
        let Arrivals {
            alloc: _,
            waiting: _,
            entries: _,
            calls: _,
            home: _,
        } = self;
    }
}
