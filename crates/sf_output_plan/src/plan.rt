//! What a scene asks each vsync to show: its further displays, stacks, mirrors, captures and hit
//! tests. It is read from the scene once, before the first vsync.
use sf_base::Items;

/// A further display: its number, its size, and the stack whose layers it shows.
#[derive(Clone, Copy)]
pub struct DisplayPlan {
    pub number: u32,
    pub width: u32,
    pub height: u32,
    pub stack: u32,
}

/// A capture: its number, its layer, and its size.
#[derive(Clone, Copy)]
pub struct CapturePlan {
    pub number: u32,
    pub layer: u32,
    pub width: u32,
    pub height: u32,
}

/// A hit test: its number, and its point.
#[derive(Clone, Copy)]
pub struct HitPlan {
    pub number: u32,
    pub x: i32,
    pub y: i32,
}

/// What a scene asks to be shown of its layers.
#[derive(Drop)]
pub struct Plan {
    /// The size of the scene's own display, which shows stack 0.
    pub width: u32,
    pub height: u32,
    /// The stacks that are declared for layers.
    pub stacks: Items<(u32, u32)>,
    /// Which layers show copies of which ones.
    pub mirrors: Items<(u32, u32)>,
    /// The further displays, by rising number.
    pub displays: Items<DisplayPlan>,
    /// The captures, by rising number.
    pub captures: Items<CapturePlan>,
    /// The hit tests, by rising number.
    pub hits: Items<HitPlan>,
}
