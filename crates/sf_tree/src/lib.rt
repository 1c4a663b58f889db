//! The layer tree: transactions change it, all of a transaction's operations or none, and each
//! frame draws the layers that show, from the back.
#![tactic(auto)]

mod apply;
mod changes;
mod cycles;
mod given;
mod journal;
mod laws;
mod layers;
mod order;
mod reject;
mod showing;
mod tree;

pub use apply::ApplyFault;
pub use laws::no_layer_reaches_itself;
pub use sf_layer;
pub use tree::Tree;
