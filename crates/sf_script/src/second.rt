//! The readers of the lines that version 2 has alone.
ghost use Rattle.std.specs.Prelude.{◌≡◌, ◌≤◌, false, IfOk};
ghost use Rattle.sf_script_words.specs.Text.{words_of};
ghost use Rattle.sf_script_words.specs.Reading.{Gives};
ghost use Rattle.sf_script_scene.specs.Ranges.{IsCapture, IsDisplay, IsHit, IsMirror, IsStack};
ghost use Rattle.sf_script_scene.specs.Scene.{has_capture, has_display, has_hit, has_layer};
ghost use Rattle.sf_script.specs.Declarations.{new_number_at};
ghost use Rattle.sf_script.specs.inner.Fits.{IsNewSecond};
ghost use Rattle.sf_script.specs.Second.{new_capture_at, new_display_at, new_hit_at, new_mirror_at, new_stack_at};

use crate::draft::Draft;
use sf_script_scene::{CaptureDecl, DisplayDecl, HitDecl, Scene};
use sf_script_words::{Cause, WordFault, demand, end, number32, signed};

const MOST_PLACE: u32 = 16_384;

/// `display D W H STACK`
#[tactic(auto, unfolding(crate::specs::Second::new_display_at))]
pub fn display_line(scene: &Scene, line: &[u8]) -> Result<DisplayDecl, WordFault>
    requires { scene.now.version ≡ 2 }
    ensures given { Gives (λ x. x) result (new_display_at scene.now (words_of line.now)) }
    ensures fits { IfOk result (λ d. IsNewSecond scene.now.version IsDisplay (has_display scene.now.displays d.number) d) }
{
    let (number, rest) = number32(line, 2, 8)?;
    demand(!scene.has_display(number), line, Cause::Twice)?;
    let (width, rest) = number32(rest, 1, 1024)?;
    let (height, rest) = number32(rest, 1, 1024)?;
    let (stack, rest) = number32(rest, 0, u32::MAX)?;
    end(rest)?;
    Ok(DisplayDecl {
        number,
        width,
        height,
        stack,
    })
}

/// `stack LAYER STACK`
#[tactic(auto, unfolding(crate::specs::Second::new_stack_at))]
pub fn stack_line(draft: &Draft, line: &[u8]) -> Result<(u32, u32), WordFault>
    requires { draft.now.scene.version ≡ 2 }
    ensures given { Gives (λ x. x) result (new_stack_at draft.now.scene (words_of line.now)) }
    ensures fits { IfOk result (λ s. IsNewSecond draft.now.scene.version IsStack (has_layer draft.now.scene.stacks s.0) s) }
{
    let (layer, rest) = number32(line, 1, u32::MAX)?;
    demand(!draft.has_stack(layer), line, Cause::Twice)?;
    let (stack, rest) = number32(rest, 0, u32::MAX)?;
    end(rest)?;
    Ok((layer, stack))
}

/// `capture C LAYER W H`
#[tactic(auto, unfolding(crate::specs::Second::new_capture_at))]
pub fn capture_line(scene: &Scene, line: &[u8]) -> Result<CaptureDecl, WordFault>
    requires { scene.now.version ≡ 2 }
    ensures given { Gives (λ x. x) result (new_capture_at scene.now (words_of line.now)) }
    ensures fits { IfOk result (λ c. IsNewSecond scene.now.version IsCapture (has_capture scene.now.captures c.number) c) }
{
    let (number, rest) = number32(line, 1, 8)?;
    demand(!scene.has_capture(number), line, Cause::Twice)?;
    let (layer, rest) = number32(rest, 1, u32::MAX)?;
    let (width, rest) = number32(rest, 1, 1024)?;
    let (height, rest) = number32(rest, 1, 1024)?;
    end(rest)?;
    Ok(CaptureDecl {
        number,
        layer,
        width,
        height,
    })
}

/// `hit H X Y`
#[tactic(auto, unfolding(crate::specs::Second::new_hit_at))]
pub fn hit_line(scene: &Scene, line: &[u8]) -> Result<HitDecl, WordFault>
    requires { scene.now.version ≡ 2 }
    ensures given { Gives (λ x. x) result (new_hit_at scene.now (words_of line.now)) }
    ensures fits { IfOk result (λ h. IsNewSecond scene.now.version IsHit (has_hit scene.now.hits h.number) h) }
{
    let (number, rest) = number32(line, 1, 64)?;
    demand(!scene.has_hit(number), line, Cause::Twice)?;
    let (x, rest) = signed(rest, MOST_PLACE, MOST_PLACE)?;
    let (y, rest) = signed(rest, MOST_PLACE, MOST_PLACE)?;
    end(rest)?;
    Ok(HitDecl { number, x, y })
}

/// `mirror LAYER LAYER`
#[tactic(auto, unfolding(crate::specs::Second::new_mirror_at))]
pub fn mirror_line(scene: &Scene, line: &[u8]) -> Result<(u32, u32), WordFault>
    requires { scene.now.version ≡ 2 }
    ensures given { Gives (λ x. x) result (new_mirror_at scene.now (words_of line.now)) }
    ensures fits { IfOk result (λ m. IsNewSecond scene.now.version IsMirror (has_layer scene.now.mirrors m.0) m) }
{
    let (layer, rest) = number32(line, 1, u32::MAX)?;
    demand(!scene.has_mirror(layer), line, Cause::Twice)?;
    let (mirrored, rest) = number32(rest, 1, u32::MAX)?;
    end(rest)?;
    Ok((layer, mirrored))
}
