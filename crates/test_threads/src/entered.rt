//! A turn at pixels that has entered.
ghost use Rattle.std.specs.Prelude.{◌≡◌};

use crate::counted::Counted;
use sf_turns::Inside;

/// A turn that has entered, with the pixels that it found.
#[derive(Drop)]
pub struct Entered {
    pub inside: Inside<Counted>,
    pub pixels: Counted,
    ghost found: { pixels.stamp ≡ inside.expects },
}
