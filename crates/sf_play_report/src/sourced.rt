//! A view that is ready to be composed: it has the places of its pixels.
use law_played::View;
use sf_base::Items;

/// A view, with the places of its buffers in the contents.
#[derive(Drop)]
pub struct SourcedView {
    pub view: View,
    /// For each drawn layer the place of its buffer in the contents, 0 for a colour.
    pub sources: Items<u32>,
}
