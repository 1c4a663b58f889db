//! One filled rectangle of a picture.
use sf_base::{Rect, Rgba};

/// A rectangle of one colour. It may reach beyond its picture, and fills the part inside.
#[derive(Clone, Copy, PartialEq, Eq)]
pub struct Fill {
    pub rect: Rect,
    pub colour: Rgba,
}
