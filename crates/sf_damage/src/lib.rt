//! What of a display has to be painted anew, and what of each layer shows: the points at which two
//! views have different stacks, and the part of each layer that no opaque layer above it hides.
//!
//! A frame is composed over the one before it: only where something changed, and of most layers
//! only what shows.
#![tactic(auto)]

mod bounds;
mod changes;
mod constant;
mod cuts;
mod damaged;
mod differing;
mod gathered;
mod laws;
mod parts;
mod pieces;
mod same;
mod shared;
mod shown;
mod windows;

pub use damaged::dirty;
pub use laws::{equal_stacks_have_equal_images, what_is_hidden_is_nothing, what_shows_everywhere};
pub use sf_region;
pub use sf_view;
pub use sf_view::{sf_layer, sf_picture};
pub use shown::visible;
