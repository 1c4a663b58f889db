//! The readers of what stands behind `set N LAYER`.
ghost use Rattle.std.specs.Prelude.{◌≡◌, ◌≤◌, IfOk};
ghost use Rattle.sf_script_words.specs.Text.{words_of};
ghost use Rattle.sf_script_words.specs.Reading.{Gives};
ghost use Rattle.sf_script_scene.specs.Ranges.{IsChange, IsPlace};
ghost use Rattle.sf_script_scene.specs.declared.change.Change.TheVariants as change;
ghost use Rattle.sf_script.specs.Changes.{change_at, changed_at, coloured_at, created_at, cropped_at, depth_at, framed_at};
ghost use Rattle.sf_script.specs.Changes.{moved_at, parent_at, place_at, raised_at, related_at, with_flag_at, with_number_at};

use crate::keywords::change_form;
use crate::line::ChangeForm;
use sf_script_scene::Change;
use sf_script_words::{Cause, WordFault, colour, flag, is, number32, signed, word, wrong};

const MOST_PLACE: u32 = 16_384;

/// `none`, or the number of a layer, 0 being the root
#[tactic(auto, unfolding(crate::specs::Changes::parent_at))]
fn parent(line: &[u8]) -> Result<(Option<u32>, &[u8]), WordFault>
    ensures { Gives (λ x. (x.0, words_of x.1.now)) result (parent_at (words_of line.now)) }
{
    let (word, behind) = word(line)?;
    if is(word, b"none") {
        return Ok((None, behind));
    }
    let (parent, rest) = number32(line, 0, u32::MAX)?;
    Ok((Some(parent), rest))
}

/// `container PARENT`, `colour PARENT` or `buffer PARENT`, behind `create`
#[tactic(auto, unfolding(crate::specs::Changes::created_at))]
fn created(line: &[u8]) -> Result<(Change, &[u8]), WordFault>
    ensures given { Gives (λ x. (x.0, words_of x.1.now)) result (created_at (words_of line.now)) }
    ensures fits { IfOk result (λ x. IsChange x.0) }
{
    let (kind, rest) = word(line)?;
    if is(kind, b"container") {
        let (parent, rest) = parent(rest)?;
        Ok((Change::CreateContainer(parent), rest))
    } else if is(kind, b"colour") {
        let (parent, rest) = parent(rest)?;
        Ok((Change::CreateColour(parent), rest))
    } else if is(kind, b"buffer") {
        let (parent, rest) = parent(rest)?;
        Ok((Change::CreateBuffer(parent), rest))
    } else {
        Err(wrong(line, Cause::UnknownWord))
    }
}

/// A place in the order of drawing.
fn depth(line: &[u8]) -> Result<(i32, &[u8]), WordFault>
    ensures { Gives (λ x. (x.0, words_of x.1.now)) result (depth_at (words_of line.now)) }
{
    signed(line, 2_147_483_648, 2_147_483_647)
}

/// A coordinate of a layer, in pixels.
fn place(line: &[u8]) -> Result<(i32, &[u8]), WordFault>
    ensures given { Gives (λ x. (x.0, words_of x.1.now)) result (place_at (words_of line.now)) }
    ensures range { IfOk result (λ x. IsPlace x.0) }
{
    signed(line, MOST_PLACE, MOST_PLACE)
}

/// `z Z`
#[tactic(auto, unfolding(crate::specs::Changes::raised_at))]
fn raised(line: &[u8]) -> Result<(Change, &[u8]), WordFault>
    ensures given { Gives (λ x. (x.0, words_of x.1.now)) result (raised_at (words_of line.now)) }
    ensures fits { IfOk result (λ x. IsChange x.0) }
{
    let (z, rest) = depth(line)?;
    Ok((Change::Z(z), rest))
}

/// `relative LAYER Z`
#[tactic(auto, unfolding(crate::specs::Changes::related_at))]
fn related(line: &[u8]) -> Result<(Change, &[u8]), WordFault>
    ensures given { Gives (λ x. (x.0, words_of x.1.now)) result (related_at (words_of line.now)) }
    ensures fits { IfOk result (λ x. IsChange x.0) }
{
    let (layer, rest) = number32(line, 1, u32::MAX)?;
    let (z, rest) = depth(rest)?;
    Ok((Change::Relative(layer, z), rest))
}

/// `position PX PY`
#[tactic(auto, unfolding(crate::specs::Changes::moved_at))]
fn moved(line: &[u8]) -> Result<(Change, &[u8]), WordFault>
    ensures given { Gives (λ x. (x.0, words_of x.1.now)) result (moved_at (words_of line.now)) }
    ensures fits { IfOk result (λ x. IsChange x.0) }
{
    let (x, rest) = place(line)?;
    let (y, rest) = place(rest)?;
    Ok((Change::Position(x, y), rest))
}

/// `crop PX PY CW CH`, behind `crop`
#[tactic(auto, unfolding(crate::specs::Changes::framed_at))]
fn framed(line: &[u8]) -> Result<(Change, &[u8]), WordFault>
    ensures given { Gives (λ x. (x.0, words_of x.1.now)) result (framed_at (words_of line.now)) }
    ensures fits { IfOk result (λ x. IsChange x.0) }
{
    let (x, rest) = place(line)?;
    let (y, rest) = place(rest)?;
    let (width, rest) = number32(rest, 0, MOST_PLACE)?;
    let (height, rest) = number32(rest, 0, MOST_PLACE)?;
    Ok((Change::Crop(x, y, width, height), rest))
}

/// `crop none` or `crop PX PY CW CH`
#[tactic(auto, unfolding(crate::specs::Changes::cropped_at))]
fn cropped(line: &[u8]) -> Result<(Change, &[u8]), WordFault>
    ensures given { Gives (λ x. (x.0, words_of x.1.now)) result (cropped_at (words_of line.now)) }
    ensures fits { IfOk result (λ x. IsChange x.0) }
{
    let (word, behind) = word(line)?;
    if is(word, b"none") {
        return Ok((Change::CropNone, behind));
    }
    framed(line)
}

/// `alpha ALPHA`
fn covered(line: &[u8]) -> Result<(Change, &[u8]), WordFault>
    ensures given { Gives (λ x. (x.0, words_of x.1.now)) result (with_number_at change.Alpha 255 (words_of line.now)) }
    ensures fits { IfOk result (λ x. IsChange x.0) }
{
    let (alpha, rest) = number32(line, 0, 255)?;
    Ok((Change::Alpha(alpha as u8), rest))
}

/// `orient ORIENT`
fn oriented(line: &[u8]) -> Result<(Change, &[u8]), WordFault>
    ensures given { Gives (λ x. (x.0, words_of x.1.now)) result (with_number_at change.Orient 7 (words_of line.now)) }
    ensures fits { IfOk result (λ x. IsChange x.0) }
{
    let (orientation, rest) = number32(line, 0, 7)?;
    Ok((Change::Orient(orientation as u8), rest))
}

/// `colour COLOUR`
#[tactic(auto, unfolding(crate::specs::Changes::coloured_at))]
fn coloured(line: &[u8]) -> Result<(Change, &[u8]), WordFault>
    ensures given { Gives (λ x. (x.0, words_of x.1.now)) result (coloured_at (words_of line.now)) }
    ensures fits { IfOk result (λ x. IsChange x.0) }
{
    let (colour, rest) = colour(line)?;
    Ok((Change::Colour(colour), rest))
}

/// What this form changes.
#[tactic(auto, unfolding(crate::specs::Changes::changed_at))]
fn changed(form: ChangeForm, line: &[u8]) -> Result<(Change, &[u8]), WordFault>
    ensures given { Gives (λ x. (x.0, words_of x.1.now)) result (changed_at form (words_of line.now)) }
    ensures fits { IfOk result (λ x. IsChange x.0) }
{
    match form {
        ChangeForm::Create => created(line),
        ChangeForm::Destroy => Ok((Change::Destroy, line)),
        ChangeForm::Reparent => {
            let (parent, rest) = parent(line)?;
            Ok((Change::Reparent(parent), rest))
        }
        ChangeForm::Z => raised(line),
        ChangeForm::Relative => related(line),
        ChangeForm::Position => moved(line),
        ChangeForm::Crop => cropped(line),
        ChangeForm::Alpha => covered(line),
        ChangeForm::Hidden => {
            let (hidden, rest) = flag(line)?;
            Ok((Change::Hidden(hidden), rest))
        }
        ChangeForm::Opaque => {
            let (opaque, rest) = flag(line)?;
            Ok((Change::Opaque(opaque), rest))
        }
        ChangeForm::Colour => coloured(line),
        ChangeForm::Backpressure => {
            let (waits, rest) = flag(line)?;
            Ok((Change::Backpressure(waits), rest))
        }
        ChangeForm::Orient => oriented(line),
    }
}

/// What a `set` line changes, and what is left of the line behind it.
#[tactic(auto, unfolding(crate::specs::Changes::change_at))]
pub fn change(line: &[u8]) -> Result<(Change, &[u8]), WordFault>
    ensures given { Gives (λ x. (x.0, words_of x.1.now)) result (change_at (words_of line.now)) }
    ensures fits { IfOk result (λ x. IsChange x.0) }
{
    let (word, rest) = word(line)?;
    match change_form(word) {
        Some(form) => changed(form, rest),
        None => Err(wrong(line, Cause::UnknownWord)),
    }
}
