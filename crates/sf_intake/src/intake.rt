//! The queue through which transactions arrive without a lock, shared by reference among the
//! threads of a live run.
ghost use Rattle.std.specs.Prelude.{◌≡◌, IfOk};
ghost use Rattle.sf_intake.specs.Views.{first_taker};

use crate::posted::Posted;
use crate::protocol::{InOneOrder, Knows};
use crate::taker::Taker;
use crossbeam_queue::{RuledSegQueue, SegPass};
use sf_base::NoMemory;
use sf_token::{Lease, LeaseHome};
use std::alloc::Global;
use std::marker::Model;

/// A pass of the queue, the taker's or a sender's: what makes its steps known to be theirs.
pub(crate) type IntakePass<L> = SegPass<Posted<L>, Knows<Posted<L>>, Global>;

/// The queue through which transactions arrive, shared by reference among threads. Contracts see
/// which queue it is. `N` says which leases they bring.
pub struct Intake<L: Lease, N: LeaseHome<L>> {
    pub(crate) queue: RuledSegQueue<Posted<L>, Knows<Posted<L>>, InOneOrder<L, N>, Global>,
}

impl<L: Lease, N: LeaseHome<L>> Model for Intake<L, N> {
    ghost use Rattle.atomic_blocks.specs.Laid.{WebId};
    ghost use Rattle.std.specs.Coded.{coded×, coded_ℕ};

    ghost Value = { WebId };

    ghost coded = { coded× coded_ℕ coded_ℕ };

    ghost view = { λ i. i.queue.web };
}

impl<L: Lease, N: LeaseHome<L>> Intake<L, N> {
    /// An intake through which nothing came yet, and the one right to take from it. `N` says which leases
    /// are sent through it. Its only error is out of memory.
    pub fn open(alloc: Global) -> Result<(Intake<L, N>, Taker<L, N>), NoMemory>
        ensures { IfOk result (λ opened. opened.1 ≡ first_taker opened.0) }
    {
        match RuledSegQueue::with_rule(alloc) {
            Ok((queue, pass)) => Ok((Intake { queue }, Taker::of(alloc, pass))),
            Err(_) => Err(NoMemory),
        }
    }
}

impl<L: Lease + Drop, N: LeaseHome<L>> Drop for Intake<L, N> {
    fn drop(self) {
        let Intake { queue } = self;
        queue.destroy();
    }
}
