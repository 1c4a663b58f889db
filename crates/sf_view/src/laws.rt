//! A law about views, called for its clauses alone: a view has the image of the layers that it is
//! of.
ghost use Rattle.sf_view.specs.Images.{ViewsShowTheirOrder, ViewsShowTheirTree};

/// At each point of the display the stack of a view shows the image of the layers that it is of,
/// and that of a tree's view the image of the tree.
pub fn a_view_has_the_image_of_its_order()
    ensures in_order { ViewsShowTheirOrder }
    ensures of_tree { ViewsShowTheirTree }
{}
