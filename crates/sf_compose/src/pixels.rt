//! What has pixels to show, as a trait.
ghost use Rattle.std.specs.Prelude.{◌≡◌};
ghost use Rattle.sf_damage.specs.sf_picture.declared.picture.Picture.{Picture as PictureValue};

use sf_damage::sf_picture::Painted;

/// What has pixels to show: a painted picture, or what holds one.
pub trait Pixels {
    /// The picture in its pixels.
    ghost picture: { Self → PictureValue };

    /// Its pixels.
    fn pixels(&self) -> &Painted
        ensures { result.now ≡ picture self.now };
}

impl Pixels for Painted {
    ghost picture = { λ painted. painted };

    fn pixels(&self) -> &Painted {
        self
    }
}
