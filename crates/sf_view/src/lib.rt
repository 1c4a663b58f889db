//! What a display shows of a layer tree: the layers that are drawn, from the back, each with its
//! place, its alpha, and the part of the display to which crops and contents cut it. A frame's
//! image is painted from it.
#![tactic(auto)]

mod ancestors;
mod content;
mod drawn;
mod interval;
mod laws;
mod placement;
mod placing;
mod view;

pub use ancestors::ancestry;
pub use content::Content;
pub use drawn::Drawn;
pub use laws::a_view_has_the_image_of_its_order;
pub use sf_picture;
pub use sf_tree;
pub use sf_tree::sf_layer;
pub use view::{View, view_in_order, view_of};
