//! Why an operation is rejected: the first cause that applies, with its number in records.
ghost use Rattle.std.specs.Prelude.{◌≡◌};
ghost use Rattle.sf_tree.specs.Rejects.{number_of};

// Why an operation is rejected. The first of these causes, by number, is reported.
#[derive(Clone, Copy)]
pub enum Reject {
    // 1: the layer of an operation other than `create`, or the parent or the relative layer that
    // it names, is not in the tree.
    UnknownLayer,
    // 2: `create` of a number that is in the tree.
    LayerExists,
    // 3: after `reparent` the layer would be its own ancestor.
    ParentCycle,
    // 4: after `reparent` or `relative` the layer would reach itself by steps to a parent or to a
    // relative layer.
    DrawCycle,
    // 5: `create` while the tree is full.
    TooManyLayers,
    // 6: a colour for a layer that is no colour layer, or a buffer for one that is no buffer
    // layer.
    WrongKind,
}

impl Reject {
    pub fn number(self) -> u32
        ensures { result ≡ number_of self }
    {
        match self {
            Reject::UnknownLayer => 1,
            Reject::LayerExists => 2,
            Reject::ParentCycle => 3,
            Reject::DrawCycle => 4,
            Reject::TooManyLayers => 5,
            Reject::WrongKind => 6,
        }
    }
}
