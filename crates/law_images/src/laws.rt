//! The laws of images, of hit tests and of trees with mirrors.
ghost use Rattle.std.specs.Prelude.{◌≡◌, ◌≤◌, ◌+◌, ◌*◌, ◌&&◌, ℕ, ℤ, not, if◌then◌else◌};
ghost use Rattle.std.specs.Prelude.{List, [], ◌∷◌, ◌++◌, None, length};
ghost use Rattle.sf_base.specs.Paint.{painted};
ghost use Rattle.sf_base.specs.declared.ids.LayerId.{LayerId};
ghost use Rattle.sf_base.specs.declared.pixel.Rgba.{Rgba};
ghost use Rattle.sf_layer.specs.declared.layer.Layer.{Layer};
ghost use Rattle.sf_picture.specs.declared.picture.Picture.{Picture};
ghost use Rattle.sf_tree.specs.DrawOrder.{draw_order};
ghost use Rattle.sf_tree.specs.Kept.{IsTree};
ghost use Rattle.sf_tree.specs.Layers.{parent_layer};
ghost use Rattle.sf_tree.specs.Showing.{shows};
ghost use Rattle.sf_view.specs.Ancestry.{and_above, ancestry};
ghost use Rattle.sf_view.specs.Image.{image_in, opaque_black};
ghost use Rattle.sf_output_shown.specs.Copies.{written};
ghost use Rattle.sf_output_shown.specs.Cuts.{cut};
ghost use Rattle.sf_output_shown.specs.Hits.{front};
ghost use Rattle.law_images.specs.Counts.{times_in};
ghost use Rattle.law_images.specs.Seen.{IsHitSeen, over_black, that_show};
ghost use Rattle.law_images.specs.Pixels.{IsPixel, transparent};
ghost use Rattle.law_images.specs.Trees.{LayerOfTree, above_passes};

/// Each image is opaque: whatever the layers are, the alpha of each pixel is 255. So who shows a
/// frame, or keeps a capture, may leave alpha out.
pub fn every_image_is_opaque()
    ensures { (pictures : ℕ → Picture) (layers : List Layer) (order : List LayerId) (x y : ℤ) → (image_in pictures layers order x y).a ≡ 255 }
{}

/// A source whose alpha comes to 0, and transparent black under any alpha, leave a pixel as it is. So
/// layers whose alpha comes to 0 may be left out of an image.
pub fn what_is_transparent_changes_nothing()
    ensures alpha { (under source : Rgba) → IsPixel under → painted under source 0 ≡ under }
    ensures clear { (under : Rgba) (alpha : ℕ) → IsPixel under → painted under transparent alpha ≡ under }
    ensures layers { (pictures : ℕ → Picture) (tree layers : List Layer) (x y : ℤ)
        → over_black pictures tree x y (that_show tree layers) ≡ over_black pictures tree x y layers }
{}

/// Where a hit test finds no layer, the image is black there; and where it finds one, the pixel is that
/// layer's, painted over what lies below it.
pub fn a_hit_says_what_is_seen()
    ensures nothing { (pictures : ℕ → Picture) (tree : List Layer) (order : List LayerId) (x y : ℤ)
        → front tree order x y ≡ None → image_in pictures tree order x y ≡ opaque_black }
    ensures layer { (pictures : ℕ → Picture) (tree : List Layer) (order : List LayerId) (x y : ℤ)
        → IsHitSeen pictures tree order x y }
{}

/// A tree without mirrors is written out as it is; with mirrors it stands in front of the copies, at
/// most as many for each mirror as it has layers.
pub fn mirrors_add_copies()
    ensures none { (tree : List Layer) → written tree [] ≡ tree }
    ensures behind { (tree : List Layer) (pairs : List (ℕ × ℕ)) → (copies : List Layer) × (written tree pairs ≡ tree ++ copies) }
    ensures few { (tree : List Layer) (pairs : List (ℕ × ℕ)) → length (written tree pairs) ≤ length tree * (length pairs + 1) }
{}

/// In a tree each layer shows by what its parent and the layer that it is relative to do, and hangs
/// below all that its parent hangs below: the number of steps that the definitions allow is enough.
pub fn steps_of_a_tree_suffice()
    ensures shows { (of : LayerOfTree) → shows of.tree of.layer ≡ (not of.layer.hidden && above_passes of) }
    ensures above { (of : LayerOfTree) → ancestry of.tree of.layer ≡ of.layer ∷ and_above (ancestry of.tree) (parent_layer of.tree of.layer.parent) }
{}

/// The draw order of a tree has each layer that shows once, and no other layer of it.
pub fn each_layer_that_shows_is_drawn_once()
    ensures { (of : LayerOfTree) → times_in (draw_order of.tree) of.layer.number ≡ (if shows of.tree of.layer then 1 else 0) }
{}

/// A layer that was cut out of a tree with all below it is cut out of that as it is: a capture shows
/// nothing else of the tree that it was cut from.
pub fn cutting_twice_is_cutting_once()
    ensures { (most : ℕ) (tree : List Layer) (id : LayerId) → IsTree most tree → cut (cut tree id) id ≡ cut tree id }
{}
