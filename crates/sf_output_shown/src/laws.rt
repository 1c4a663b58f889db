//! Laws about what displays show, called for their clauses alone.
ghost use Rattle.std.specs.Prelude.{◌≡◌, List, [], None, ℤ, pos, false};
ghost use Rattle.sf_view.specs.sf_layer.declared.layer.Layer.{Layer as LayerValue};
ghost use Rattle.sf_view.specs.sf_tree.DrawOrder.{draw_order};
ghost use Rattle.sf_view.specs.Placements.{is_in_display};
ghost use Rattle.sf_view.specs.Views.{IsView, ViewOf};
ghost use Rattle.sf_output_shown.specs.Displays.{order_on};
ghost use Rattle.sf_output_shown.specs.Hits.{PointInOrder, front, hit_in};

/// Where no stack is declared, stack 0 has the whole draw order.
pub fn stacks_may_be_left_out()
    ensures { (tree : List LayerValue) → order_on tree [] 0 ≡ draw_order tree }
{}

/// At a point of the display the last drawn layer of a view whose clip has it is the last layer of the
/// order that it is in; and a point off the display is in no clip.
pub fn a_hit_is_in_front()
    ensures here { (at : PointInOrder) → hit_in at.view (pos at.x) (pos at.y) ≡ front at.tree at.order (pos at.x) (pos at.y) }
    ensures off { (view : ViewOf) (x y : ℤ) → IsView view → is_in_display view.width view.height x y ≡ false → hit_in view x y ≡ None }
{}
