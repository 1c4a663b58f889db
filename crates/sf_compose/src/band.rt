//! Rows of a frame: what one thread composes.
ghost use Rattle.std.specs.Prelude.{◌≡◌, ◌-◌, ◌*◌, ◌<◌, ◌≤◌, ℕ, true};
ghost use Rattle.sf_compose.specs.inner.Bands.{IsInBand};
ghost use Rattle.sf_compose.specs.inner.Painting.{is_in_area};

use crate::area::Area;
use sf_damage::sf_view::View;

// Rows of a display, as bytes of a frame have them: those from one on and before another, of so many
// pixels each.
#[derive(Clone, Copy)]
pub struct Band {
    pub width: u32,
    pub top: u32,
    pub bottom: u32,
}

/// All rows of a view's display.
pub fn all_rows(view: &View) -> Band
    ensures width { result.width ≡ view.now.width }
    ensures top { result.top ≡ 0 }
    ensures bottom { result.bottom ≡ view.now.height }
{
    Band {
        width: view.width,
        top: 0,
        bottom: view.height,
    }
}

/// The points of a band.
pub fn area_of(band: Band) -> Area
    ensures within { IsInBand band result }
    ensures points { (x y : ℕ) → x < band.width → band.top ≤ y → y < band.bottom → is_in_area result x y ≡ true }
{
    Area {
        left: 0,
        right: band.width,
        top: band.top,
        bottom: band.bottom,
    }
}

/// The number of the first pixel of a row in its band.
pub fn row_start(band: Band, y: u32) -> usize
    requires { band.top ≤ y }
    ensures { result ≡ (y - band.top) * band.width }
{
    (y - band.top) as usize * band.width as usize
}
