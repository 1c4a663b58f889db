//! What a layer hangs from: the root, another layer, or nothing.
use sf_base::LayerId;

/// What a layer hangs from.
#[derive(Clone, Copy)]
pub enum Parent {
    /// The display itself.
    Root,
    /// Another layer of the tree.
    Layer(LayerId),
    /// Nothing: the layer and all below it are not drawn.
    Nothing,
}
