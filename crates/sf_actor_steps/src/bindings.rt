//! What an actor's names and transaction numbers hold, and the permits that it has left.
use crate::table::Table;
use sf_actor::{Holding, Painted, Permit, ReadLease, Stock, TableName, Transaction};
use sf_base::{ActorId, NoMemory};
use std::alloc::Global;

/// How many names an actor has, from 0 on.
const NAMES: u32 = 32;

/// How many transaction numbers there are, from 0 on; number 0 stays empty.
const TRANSACTIONS: u32 = 65;

/// What an actor's names and transaction numbers are bound to, and the buffers that it may still open.
pub struct Bindings<B: TableName> {
    pub alloc: Global,
    pub by: ActorId,
    pub names: Table<Holding<B>>,
    pub transactions: Table<Transaction<ReadLease<B>>>,
    pub stock: Stock<Painted>,
    /// The permit that the last dequeue handed back.
    pub spare: Option<Permit<Painted>>,
}

impl<B: TableName> Bindings<B> {
    ghost use Rattle.std.specs.Prelude.{◌≡◌, IfOk, IfErr};
    ghost use Rattle.sf_actor_steps.specs.Actors.{HoldNothing};

    /// Bindings that hold nothing but a stock. Out of memory hands the stock back.
    pub fn new(
        alloc: Global,
        by: ActorId,
        stock: Stock<Painted>,
    ) -> Result<Bindings<B>, (NoMemory, Stock<Painted>)>
        ensures bindings { IfOk result (λ bindings. HoldNothing bindings by stock) }
        ensures back { IfErr result (λ back. back.1 ≡ stock) }
    {
        let Ok(names) = Table::new(alloc, NAMES) else {
            return Err((NoMemory, stock));
        };
        let Ok(transactions) = Table::new(alloc, TRANSACTIONS) else {
            return Err((NoMemory, stock));
        };
        Ok(Bindings {
            alloc,
            by,
            names,
            transactions,
            stock,
            spare: None,
        })
    }
}

impl<B: TableName> Drop for Bindings<B> {
    fn drop(self) {
        let Bindings {
            alloc: _,
            by: _,
            names: _,
            transactions: _,
            stock: _,
            spare: _,
        } = self;
    }
}
