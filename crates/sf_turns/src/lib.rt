//! Turns: the right to touch a buffer's pixels once, handed on before the work is done. Each buffer
//! has a chain of turns. The holder of the last one may issue the next, with a promise of what it
//! will leave in the buffer; a turn enters only after all before it have left, and finds what was
//! promised. A queued frame's acquire fence is the end of the producer's turn, its release fence
//! the end of the reader's. No call waits.
#![tactic(auto)]

mod busy;
mod inside;
mod naming;
mod open;
mod owed;
mod painted;
mod parts;
mod protocol;
mod seat;
mod stamped;
mod stock;
mod turn;
mod turn_table;

pub use busy::Busy;
pub use inside::Inside;
pub use naming::TableName;
pub use open::open_turns;
pub use owed::Owed;
pub use seat::TurnSeat;
pub use sf_picture;
pub use stamped::Stamped;
pub use stock::{Permit, Stock};
pub use turn::Turn;
