//! What anyone who looks at an image may rely on, whatever its layers are: it is opaque, what is
//! transparent changes nothing, a hit test says what is seen, and mirrors add copies and change no
//! layer, and what was cut out of a tree stands for itself. It follows from the definitions of images alone; here are the laws.
#![tactic(auto)]

mod laws;

pub use laws::{
    a_hit_says_what_is_seen, cutting_twice_is_cutting_once, each_layer_that_shows_is_drawn_once,
    every_image_is_opaque, mirrors_add_copies, steps_of_a_tree_suffice,
    what_is_transparent_changes_nothing,
};
