//! A layer as a display draws it: its content, place and alpha, and the part of the display that it
//! may paint.
use crate::content::Content;
use sf_base::{LayerId, Rect};

/// A layer as a display draws it.
#[derive(Clone, Copy)]
pub struct Drawn {
    pub layer: LayerId,
    /// The points of the display at which it is drawn. It may be empty.
    pub clip: Rect,
    /// Where the layer lies on the display, in pixels to the right and down.
    pub place: (i32, i32),
    /// The alpha of the layer and of all its ancestors, 255 being opaque.
    pub alpha: u8,
    /// Whether the alpha of the content's own pixels counts as 255.
    pub opaque: bool,
    pub content: Content,
    /// How its buffer's crop is turned, as a layer's orientation says.
    pub orient: u8,
}
