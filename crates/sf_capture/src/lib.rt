//! A layer with all below it as a tree of its own, which a capture shows, and what is in front at a
//! point of a view.
#![tactic(auto)]

mod cutting;
mod hitting;

pub use cutting::cut;
pub use hitting::hit;
