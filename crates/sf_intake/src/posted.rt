//! What lies in the queue: a transaction with its sender, its step and its stamp.
use sf_base::ActorId;
use sf_token::{Lease, Transaction};
use std::marker::Model;

/// A transaction in the queue: who sent it, at which step, and with which stamp.
#[derive(Drop)]
pub struct Posted<L: Lease> {
    pub(crate) actor: ActorId,
    pub(crate) step: u32,
    pub(crate) stamp: u64,
    pub(crate) txn: Transaction<L>,
}

impl<L: Lease> Model for Posted<L> {
    ghost use Rattle.sf_intake.specs.Posts.{Post};

    ghost Value = { Post L };

    ghost view = { λ p. record { actor = p.actor; step = p.step; stamp = p.stamp; txn = p.txn } };
}
