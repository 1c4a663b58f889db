//! What a drawn layer shows: a colour, or a crop of a buffer.
ghost use Rattle.std.specs.Prelude.{◌≡◌};
ghost use Rattle.sf_view.specs.Contents.{content_of};

use sf_base::Rgba;
use sf_tree::sf_layer::{Kind, Layer, Shown};

/// What a drawn layer shows.
#[derive(Clone, Copy)]
pub enum Content {
    /// One colour everywhere.
    Colour(Rgba),
    /// The crop of a buffer, its upper left corner at the layer's place.
    Buffer(Shown),
}

/// What a layer shows, if it shows anything.
pub fn content_of(layer: &Layer) -> Option<Content>
    ensures { result ≡ content_of layer.now }
{
    match layer.kind {
        Kind::Container => None,
        Kind::Colour => Some(Content::Colour(layer.colour)),
        Kind::Buffer => match layer.shown {
            Some(shown) => Some(Content::Buffer(shown)),
            None => None,
        },
    }
}
