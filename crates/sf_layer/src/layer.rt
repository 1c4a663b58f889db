//! A layer of the tree, as plain data: all that transactions change of it.
use crate::kind::Kind;
use crate::parent::Parent;
use crate::shown::Shown;
use sf_base::{LayerId, Rect, Rgba};

/// A layer of the tree.
#[derive(Clone, Copy)]
pub struct Layer {
    pub number: LayerId,
    pub kind: Kind,
    pub parent: Parent,
    /// The layer over or under which it is drawn instead of its parent.
    pub relative: Option<LayerId>,
    /// Its order among the layers drawn with it, the least at the back; below 0 it is drawn
    /// behind the layer that they are drawn with.
    pub z: i32,
    /// Where it lies from its parent, in pixels, to the right and down.
    pub position: (i32, i32),
    /// The part of the display, from its own place on, to which it and all below it are cut.
    pub crop: Option<Rect>,
    /// How opaque it and all below it are drawn, 255 being fully.
    pub alpha: u8,
    /// Whether it and all below it are left out.
    pub hidden: bool,
    /// Whether the alpha of its own pixels counts as 255.
    pub opaque: bool,
    /// Whether at most one buffer for it is committed in a vsync.
    pub backpressure: bool,
    /// What a colour layer shows, premultiplied.
    pub colour: Rgba,
    /// What a buffer layer shows.
    pub shown: Option<Shown>,
    /// How its buffer's crop is turned, 0 to 7: so many quarter turns clockwise, counted modulo 4,
    /// after a mirroring from left to right where it is 4 or more.
    pub orient: u8,
}
