//! Pictures, which stand for what a client draws into a buffer: a size, a list of filled
//! rectangles, and the format of the buffer. A producer paints one into the pixels of a dequeued
//! buffer; the compositor later reads the bytes of the shown buffer row by row.
#![tactic(auto)]

mod cover;
mod fill;
mod painted;
mod picture;
mod rows;
mod solid;
mod spans;

pub use fill::Fill;
pub use painted::{Painted, paint};
pub use picture::{Picture, blank};
pub use solid::are_solid;
