//! The image of a view: the drawn layers painted over one another, from the back, into the bytes
//! of a frame. It is the last step of a frame's way: what a vsync latched is composed here, and
//! only in the part that is asked for. It is composed in slices of rows, all layers one after another
//! in each. Each layer goes row by row, one call of a row kernel for each. A slice begins with the
//! topmost layer that hides all of it, and with black where layers do not hide it together either.
//! Of a buffer that is oriented or mirrored, each row is first picked into a row of its own, or, where
//! its pixels are only moved, straight into the frame.
#![tactic(auto)]

mod area;
mod band;
mod begin;
mod beside;
mod composition;
mod contents;
mod cover;
mod crop;
mod ground;
mod laws;
mod layer;
mod moving;
mod one;
mod oriented;
mod oriented_moving;
mod parallel;
mod pixels;
mod scattered;
mod seen;
mod share;
mod slices;
mod solid;
mod spans;
mod steps;
mod whole;

pub use composition::Composition;
pub use laws::{
    composing_has_one_frame, composing_what_differs_gives_the_frame, what_is_read_is_the_image,
};
pub use one::{compose_one, compose_seen};
pub use parallel::{compose, compose_by};
pub use pixels::Pixels;
pub use sf_damage::sf_layer::Shown;
pub use sf_damage::sf_picture::Painted;
pub use sf_damage::sf_region::Region;
pub use sf_damage::sf_view::{Content, Drawn, View};
pub use sf_damage::{dirty, visible};
pub use share::painted_at_most;
pub use whole::compose_frame;
