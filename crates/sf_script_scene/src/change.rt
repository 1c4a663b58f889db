//! What a `set` step changes in a layer.
use sf_base::Rgba;

/// What a `set` step changes in a layer. A parent is the number of a layer, 0 for the root, or
/// none: without a parent a layer and what stands below it are not shown.
#[derive(Clone, Copy)]
pub enum Change {
    /// A new layer that shows nothing itself, below this parent.
    CreateContainer(Option<u32>),
    /// A new layer of one colour, below this parent.
    CreateColour(Option<u32>),
    /// A new layer that shows a queue's frames, below this parent.
    CreateBuffer(Option<u32>),
    /// The layer goes, and what stands below it has no parent.
    Destroy,
    /// The layer stands below this parent.
    Reparent(Option<u32>),
    /// The layer's place among those of its parent, from the back.
    Z(i32),
    /// The layer is drawn with this layer, at this place among what is drawn with it.
    Relative(u32, i32),
    /// The layer's place in its parent, in pixels: across and down, -16,384 to 16,384.
    Position(i32, i32),
    /// The part of the layer and of what stands below it that shows, in pixels of the layer: its
    /// corner, -16,384 to 16,384, and its width and height, 0 to 16,384.
    Crop(i32, i32, u32, u32),
    /// All of the layer shows.
    CropNone,
    /// How far the layer covers what lies behind it, from not at all, 0, to wholly, 255.
    Alpha(u8),
    /// Whether the layer and what stands below it are hidden.
    Hidden(bool),
    /// Whether the layer's pixels cover as if their alpha were 255.
    Opaque(bool),
    /// The layer's colour, with its channels premultiplied by alpha.
    Colour(Rgba),
    /// Whether a frame of the layer waits until the one before it was shown.
    Backpressure(bool),
    /// How the layer's buffer is turned and mirrored, 0 to 7: as many quarter turns clockwise as
    /// the number modulo 4, and mirrored left to right before that from 4 on.
    Orient(u8),
}
