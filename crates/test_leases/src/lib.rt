//! Leases for programs that run cases of transactions: each of a buffer whose picture is one pixel
//! without fills.
#![tactic(auto)]

mod ends;
mod page;

pub use ends::Ends;
pub use page::{Closing, Opened, Page, Writes};
