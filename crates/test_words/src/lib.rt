//! The words of a case's line, as the programs read them that run cases of calls: each function
//! takes the next word, or the next few, of a line that is cut at white space. It answers None where
//! the words end, say something else, or name a fence for which there is no memory.
#![tactic(auto)]

mod fences;
mod ids;
mod numbers;
mod shapes;
mod tables;

pub use fences::{fence, point, point_fence};
pub use ids::{actor, any_layer, layer, slot, timeline, token};
pub use numbers::{coordinate, flag, number8, number32, number64, present_time};
pub use shapes::{BufferSize, buffer_size, colour, is_buffer_size, rect};
pub use tables::named;
