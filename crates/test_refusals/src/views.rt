//! Calls on views, displays, hit tests and damage.
ghost use Rattle.std.specs.Prelude.{◌≡◌, IfOk};
ghost use Rattle.sf_view.specs.Views.{IsDisplay, Views, ViewsInOrder};
ghost use Rattle.sf_output_shown.specs.Displays.{order_on};
ghost use Rattle.sf_output_shown.specs.Hits.{hit_in};
ghost use Rattle.sf_damage.specs.Damage.{Damages};

use sf_base::{LayerId, NoMemory};
use sf_capture::hit;
use sf_damage::dirty;
use sf_display::display_view;
use sf_region::Region;
use sf_tree::Tree;
use sf_view::{View, view_of};
use std::alloc::Global;

/// A view draws each layer of the tree, at its own place.
pub fn view_draws_layers(
    alloc: Global,
    tree: Tree,
    width: u32,
    height: u32,
) -> Result<View, NoMemory>
    requires { IsDisplay width height }
    ensures { IfOk result (Views tree.layers width height) }
{
    view_of(alloc, &tree, width, height)
}

/// A display shows the layers of its own stack alone.
pub fn display_shows_a_stack(
    alloc: Global,
    tree: &Tree,
    stacks: &[(u32, u32)],
    stack: u32,
    width: u32,
    height: u32,
) -> Result<View, NoMemory>
    requires { IsDisplay width height }
    ensures { IfOk result (ViewsInOrder tree.now.layers (order_on tree.now.layers stacks.now stack) width height) }
{
    display_view(alloc, tree, stacks, stack, width, height)
}

/// In front at a point is the last drawn layer whose clip has it.
pub fn hit_is_in_a_clip(view: &View, x: i32, y: i32) -> Option<LayerId>
    ensures { result ≡ hit_in view.now x y }
{
    hit(view, x, y)
}

/// What has to be painted anew is where two views differ, also where a layer is gone.
pub fn dirty_is_where_views_differ(
    alloc: Global,
    old: &View,
    new: &View,
) -> Result<Region, NoMemory>
    ensures { IfOk result (Damages old.now new.now) }
{
    dirty(alloc, old, new)
}
