//! An image of a vsync: which one it is, and what is known of it, its view, then its screen, then its
//! pixels.

/// Which image of a vsync.
#[derive(Clone, Copy)]
pub enum ImageId {
    /// The frame of the scene's own display.
    Frame,
    /// The frame of a further display, by its number.
    Display(u32),
    /// A layer by itself, by the number of the capture.
    Capture(u32),
}

/// An image of a vsync. It stands for what is known of it: what it is of, its view, or its pixels.
#[derive(Drop)]
pub struct Image<T: Drop> {
    /// Which one it is.
    pub of: ImageId,
    pub shows: T,
}
