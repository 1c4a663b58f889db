//! An actor together with its seats at what all share: what goes into a thread and comes back from
//! it.
use crate::gates::Gates;
use sf_actor_steps::Actor;
use sf_live_seats::Seats;
use sf_turns::TableName;

/// An actor with its seats at what all share, and the gates that it passed.
#[derive(Drop)]
pub struct SeatedActor<B: TableName> {
    pub actor: Actor<B>,
    pub seats: Seats<B>,
    pub gates: Gates,
}

/// What comes of a seated actor after tries of its steps.
#[derive(Drop)]
pub(crate) enum Back<B: TableName> {
    Whole(SeatedActor<B>),
    /// One that found no memory does no more steps.
    Spent(SeatedActor<B>),
}
