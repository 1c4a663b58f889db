//! The ways to combine two sets of pixels.
ghost use Rattle.std.specs.Prelude.{◌≡◌};
ghost use Rattle.sf_region.specs.Spans.{keeps};

/// How two sets of points are combined.
#[derive(Clone, Copy)]
pub enum Combine {
    Union,
    Intersect,
    Subtract,
}

impl Combine {
    /// Whether a point is kept, from whether it is in the first and in the second set.
    pub fn keeps(self, first: bool, second: bool) -> bool
        ensures { result ≡ keeps self first second }
    {
        match self {
            Combine::Union => first || second,
            Combine::Intersect => first && second,
            Combine::Subtract => first && !second,
        }
    }
}
