//! Laws about damage and what is hidden, called for their clauses alone.
ghost use Rattle.sf_damage.specs.Damage.{StacksDecide};
ghost use Rattle.sf_damage.specs.Visible.{HiddenIsNothing, ShowsEverywhere};

/// Where two views have one stack, they have one image.
pub fn equal_stacks_have_equal_images()
    ensures { StacksDecide }
{}

/// The image of a view is that of the layers painted only where they show.
pub fn what_is_hidden_is_nothing()
    ensures { HiddenIsNothing }
{}

/// Where `visible` is asked of the whole display, each region has exactly the points that show of its
/// layer, and no other point at all: those of its clip that no layer above hides.
pub fn what_shows_everywhere()
    ensures { ShowsEverywhere }
{}
