//! Why a transaction waits. At each vsync the first pending transaction of every apply token is
//! asked whether it may commit; if not, its hold says what it waits for: its time, a fence, a
//! write, a barrier, or the buffer that its layer already got in this vsync.
#![tactic(auto)]

mod causes;
mod facts;
mod hold;

pub use facts::Facts;
pub use hold::{Hold, hold_of};
