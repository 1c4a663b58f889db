//! What is shown of a layer tree beside its whole draw order: the layers of a display's stack, a
//! layer with all below it by itself, what is in front at a point, and mirrors written out.
//!
//! `specs/` says what each of these is, for `sf_display`, `sf_capture` and `sf_mirror`, which make
//! them. Here stands what these share, and what follows from the definitions alone.
#![tactic(auto)]

mod above;
mod below;
mod by_layer;
mod laws;
mod making;

pub use above::{Wanted, found_above};
pub use below::under;
pub use by_layer::ByLayer;
pub use laws::{a_hit_is_in_front, stacks_may_be_left_out};
pub use making::tree_of;
pub use sf_view;
pub use sf_view::{sf_layer, sf_tree};
