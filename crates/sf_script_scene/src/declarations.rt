//! What a script declares under numbers, and the picks of its order.

/// A declared BufferQueue, and the default size of its buffers in pixels.
#[derive(Clone, Copy)]
pub struct QueueDecl {
    /// 1 to 16.
    pub number: u32,
    /// 1 to 512.
    pub width: u32,
    /// 1 to 512.
    pub height: u32,
}

/// A further display, beside the scene's own, which has number 1 and stack 0.
#[derive(Clone, Copy)]
pub struct DisplayDecl {
    /// 2 to 8.
    pub number: u32,
    /// 1 to 1,024 pixels.
    pub width: u32,
    /// 1 to 1,024 pixels.
    pub height: u32,
    /// The stack whose layers it shows.
    pub stack: u32,
}

/// A capture: a layer and what stands below it are painted by themselves.
#[derive(Clone, Copy)]
pub struct CaptureDecl {
    /// 1 to 8.
    pub number: u32,
    /// The layer's number, from 1 on.
    pub layer: u32,
    /// 1 to 1,024 pixels.
    pub width: u32,
    /// 1 to 1,024 pixels.
    pub height: u32,
}

/// A hit test: which layer is in front at a point.
#[derive(Clone, Copy)]
pub struct HitDecl {
    /// 1 to 64.
    pub number: u32,
    /// Pixels from the display's left, -16,384 to 16,384.
    pub x: i32,
    /// Pixels from the display's top, -16,384 to 16,384.
    pub y: i32,
}

/// An entry of the order: who is picked, and how often in a row.
#[derive(Clone, Copy)]
pub struct Pick {
    /// The number of an actor, or 0 for a vsync.
    pub actor: u32,
    /// 1 to 256.
    pub times: u32,
}
