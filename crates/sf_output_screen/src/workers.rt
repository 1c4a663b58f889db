//! How many workers compose a frame: a number whose range is part of its type.
ghost use Rattle.std.specs.Prelude.{◌≤◌, ◌≡◌};

/// How many workers at most compose a frame: 1 to 16.
#[derive(Clone, Copy)]
pub struct Workers {
    pub(crate) count: u32,
    pub ghost some: { 1 ≤ count },
    pub ghost few: { count ≤ 16 },
}

impl Workers {
    /// So many workers.
    pub fn new(count: u32) -> Workers
        requires some { 1 ≤ count }
        requires few { count ≤ 16 }
        ensures { result.count ≡ count }
    {
        Workers { count }
    }
}
