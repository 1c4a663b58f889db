//! What clients of the compositor say of layers: the kinds of layers, their places in the tree,
//! the buffers that they show, and the operations by which transactions change them. A frame
//! starts here: transactions carry operations, and the layer tree applies them.
#![tactic(auto)]

mod kind;
mod layer;
mod op;
mod parent;
mod shown;

pub use kind::Kind;
pub use layer::Layer;
pub use op::Op;
pub use parent::Parent;
pub use shown::Shown;
