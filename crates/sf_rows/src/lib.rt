//! The row kernels of composing: one colour, a row of premultiplied pixels, or a row of pixels
//! taken as opaque, painted over a row of the frame. Composing clips a layer to a rectangle and
//! then makes one call for each row of it, so these loops touch every pixel of every frame. Where a
//! layer is turned or mirrored, its row is first picked out of the buffer, by steps of any length.
//!
//! Four pixels at a time are blended by 128-bit lanes, and the at most three pixels that are
//! left by the plain formula of one pixel. No call takes memory, and none refuses.
#![tactic(auto)]

mod colour;
mod columns;
mod lanes;
mod opaque;
mod pick;
mod rest;
mod row;

pub use colour::blend_colour;
pub use columns::{FourRows, pick_four_rows};
pub use opaque::blend_row_opaque;
pub use pick::pick_row;
pub use row::blend_row;
