//! An actor's steps: what they ask of queues, timelines and the arrivals, what the actor's names and
//! transactions hold after them, and what a trace of done steps keeps, whatever else happens. An
//! actor steps over a desk; laws say that what its trace keeps, and what it has, stays true while
//! the histories go on.
#![tactic(auto)]

mod desk;
mod done;
mod holding;
mod laws;
mod plain;
mod settling;
mod tokens;
mod tried;

pub use desk::Desk;
pub use done::{Answered, Done};
pub use holding::Holding;
pub use laws::{a_trace_keeps_what_it_keeps, an_actor_keeps_what_it_keeps};
pub use plain::PlainDesk;
pub use settling::settle;
pub use sf_script_scene::sf_picture::{Painted, Picture};
pub use sf_script_scene::{ActorScript, Change, Points, QueueDecl, Step};
pub use sf_surface::{
    DrawFault, Ending, Gives, Held, HistEntry, Loose, Owing, Permit, QCall, QReply, QueueObject,
    ReadLease, Stock, TableName, TurnSeat, Work, WriteLease,
};
pub use sf_times::Timelines;
pub use sf_token::{BufferOp, CallFault, Kind, Lease, Op, Parent, Shown, Transaction};
pub use tokens::{Tokens, TokensOf};
pub use tried::{Reply, Stepped};
