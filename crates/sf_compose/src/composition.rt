//! What is composed: a view, with the pixels that its layers show and where each layer shows.
ghost use Rattle.std.specs.Prelude.{◌≡◌};
ghost use Rattle.sf_compose.specs.inner.Seen.{ArePaintable};

use sf_damage::sf_region::Region;
use sf_damage::sf_view::{Drawn, View};

/// A view, with the pixels that its layers show.
#[derive(Drop)]
pub struct Composition<'a, 's, C> {
    pub view: &'a View,
    /// The pixels, of several views maybe.
    pub contents: &'a [C],
    /// For each drawn layer, from the back, the index of its pixels among the contents. For a layer
    /// that shows a colour any number may stand there.
    pub sources: &'a [u32],
    /// For each drawn layer, from the back, where it shows, as `sf_damage::visible` gives it. All of
    /// each layer is painted where it is not given.
    pub shows: Option<&'s [Region]>,
}

// A drawn layer, with the index of its pixels among the contents.
#[derive(Drop)]
pub struct SourcedLayer<'a, C> {
    pub drawn: &'a Drawn,
    pub contents: &'a [C],
    pub source: u32,
}

impl<'a, 's, C> Composition<'a, 's, C> {
    /// The drawn layers, from the back.
    pub(crate) fn drawn(&self) -> &'a [Drawn]
        ensures drawn { result.now ≡ self.now.view.now.drawn }
        ensures paintable { ArePaintable result.now }
    {
        let view = self.view;
        view.drawn.as_slice()
    }
}
