//! What a layer can show, which it keeps for life.

/// What a layer can show. A layer keeps its kind for life.
#[derive(Clone, Copy)]
pub enum Kind {
    /// Nothing of its own: it groups the layers below it.
    Container,
    /// One colour, wherever its crops let it.
    Colour,
    /// A buffer of a BufferQueue.
    Buffer,
}
