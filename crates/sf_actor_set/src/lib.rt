//! The actors of a scene, by rising number, over the desk of one thread. An actor set tries the next
//! step of one actor at a time: that actor does what its script says, and every other one keeps what
//! it kept.
#![tactic(auto)]

mod actor_set;
mod compositing;
mod open;
mod permits;

pub use actor_set::ActorSet;
pub use permits::permits_for;
pub use sf_actor_steps::{Actor, ReadLease, TableName};
pub use sf_commit::Lease;
