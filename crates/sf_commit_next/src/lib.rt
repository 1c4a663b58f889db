//! Which pending transaction a vsync commits next: the first of the lowest token whose first
//! transaction nothing holds. Tokens that were held by what a commit can change are asked again after
//! each commit; the others are out for the rest of the vsync.
#![tactic(auto)]

mod asking;
mod instant;
mod next;

pub use asking::Asking;
pub use instant::Instant;
pub use next::next_token;
pub use sf_ready::{Facts, Hold, hold_of};
pub use sf_token::{
    Arrivals, ArriveCall, ArriveReply, Arrived, ArrvEntry, Batch, BufferOp, CallFault, Lease,
    Looks, Object, Outcome, Parts, TokenQueues,
};
