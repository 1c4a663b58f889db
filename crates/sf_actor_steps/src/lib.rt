//! An actor's steps, of all forms of a script, over any desk: what the actor has in its bindings,
//! its own tests, what each form asks and does, and the try of its next step. A try keeps what the
//! actor keeps, and reports what it did, or why it did nothing.
#![tactic(auto)]

mod actor;
mod asking;
mod attaching;
mod bindings;
mod calling;
mod consuming;
mod drawing;
mod editing;
mod laws;
mod leaving;
mod producing;
mod refusal;
mod steps;
mod table;
mod taking;
mod tried;

pub use actor::Actor;
pub use laws::a_new_actor_keeps_what_it_keeps;
pub use sf_actor::{
    ActorScript, CallFault, Desk, DrawFault, Lease, PlainDesk, QCall, QReply, QueueDecl,
    QueueObject, ReadLease, Reply, Step, Stepped, Stock, TableName, Timelines, Tokens, TurnSeat,
    settle,
};
