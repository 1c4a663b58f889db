//! Sets of pixels: what was damaged, what is hidden, and the parts of a frame that are composed
//! anew. Damage and occlusion of a frame are computed with them, and composing goes over their
//! rectangles.
//!
//! A region is the list of its rectangles in canonical bands. An operation passes once over the
//! bands of both regions from top to bottom, and within a row once over the spans of both from
//! left to right.
#![tactic(auto)]

mod bands;
mod combine;
mod edges;
mod hole;
mod meeting;
mod region;
mod rows;
mod spans;

pub use region::Region;
