//! Transactions: lists of operations on layers, with the buffers that they show, which a client
//! fills, merges and applies as a whole. The compositor takes what was applied, and reads each
//! buffer by its lease.
#![tactic(auto)]

mod buffer;
mod index;
mod lease;
mod lists;
mod look;
mod merge;
mod ops;
mod transaction;

pub use buffer::BufferOp;
pub use lease::Lease;
pub use sf_layer::{Kind, Op, Parent, Shown};
pub use transaction::{Parts, Transaction};
