//! Laws about composed frames, called for their clauses alone: in whatever parts a view is
//! composed, its frame is one.
ghost use Rattle.sf_compose.specs.Again.{ComposingAgainIsWhole, ComposingHasOneFrame};
ghost use Rattle.sf_compose.specs.Sources.{ReadingGivesTheImage, SourcesAreReadable};

/// Where the contents hold the pictures that a view's layers show, whatever pictures the numbers
/// stand for, they can be read, and what is read is the painter's image of the view.
pub fn what_is_read_is_the_image()
    ensures readable { SourcesAreReadable }
    ensures image { ReadingGivesTheImage }
{}

/// Where the points at which two views differ were composed anew over the frame of the old one, and
/// no other point changed, the frame is that of the new one.
pub fn composing_what_differs_gives_the_frame()
    ensures { ComposingAgainIsWhole }
{}

/// What a part shows and what stays are all bytes of a frame. So a part of a view is composed to the
/// same bytes by `compose_one`, by `compose_seen`, and by any number of workers.
pub fn composing_has_one_frame()
    ensures { ComposingHasOneFrame }
{}
