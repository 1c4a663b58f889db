//! What the images in the records of a run can be relied on for: they are opaque, and the last ones
//! show the last tree.
#![tactic(auto)]

ghost use Rattle.std.specs.Prelude.{◌≡◌, Bool, List, All, None, pos};
ghost use Rattle.law_images.specs.Seen.{IsSeenIn};
ghost use Rattle.law_played.specs.sf_view.Image.{opaque_black};
ghost use Rattle.law_played.specs.sf_record.declared.record.Record.{Record as RecordValue};
ghost use Rattle.law_played.specs.sf_script_scene.Scene.{SceneValue};
ghost use Rattle.law_played.specs.Played.{PlayedWhere};
ghost use Rattle.law_shown.specs.Last.{ShowsLast};
ghost use Rattle.law_shown.specs.Opaque.{HasOpaqueImage};
ghost use Rattle.law_shown.specs.Ends.{FramePoint, PlayedRun, hit_at, layers_at_end, pixel_at, shown_at_end};

/// Each image in the records of a played run, a frame of the scene's own display, one of a further
/// display or a capture, is opaque: the alpha of each pixel is 255.
pub fn images_of_a_run_are_opaque()
    ensures { (tells : Bool) (scene : SceneValue) (records : List RecordValue) → PlayedWhere tells scene records → All HasOpaqueImage records }
{}

/// The last vsync of a played run that shows something shows the outputs due of the tree as it is
/// at the end of the run. Where no vsync shows anything that tree has no layers.
pub fn the_last_frame_shows_the_last_tree()
    ensures { (run : PlayedRun) → ShowsLast run.scene (layers_at_end run) (shown_at_end run) }
{}

/// Where a scene has no mirrors, a hit test at a point of its own display and the frame of that vsync
/// agree: where the test finds nothing the pixel is black, and where it finds a layer the pixel is that
/// layer's, painted over what lies below it.
pub fn a_hit_agrees_with_the_frame()
    ensures nothing { (point : FramePoint) → hit_at point ≡ None → pixel_at point ≡ opaque_black }
    ensures layer { (point : FramePoint) → IsSeenIn point.pictures point.layers (pos point.x) (pos point.y) (pixel_at point) (hit_at point) }
{}
