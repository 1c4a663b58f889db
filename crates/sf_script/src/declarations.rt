//! The readers of the lines that declare: the display, timelines, queues, pictures and actors.
ghost use Rattle.std.specs.Prelude.{◌≡◌, ◌==◌, ◌≤◌, false, IfOk};
ghost use Rattle.sf_base.specs.declared.format.Format.TheVariants.{Rgba};
ghost use Rattle.sf_script_words.specs.Text.{words_of};
ghost use Rattle.sf_script_words.specs.Reading.{Gives, number_at};
ghost use Rattle.sf_script_scene.specs.Limits.{IsHeader};
ghost use Rattle.sf_script_scene.specs.Ranges.{IsFill, IsQueue, IsTimeline};
ghost use Rattle.sf_script_scene.specs.Scene.{has_actor, has_queue, has_timeline};
ghost use Rattle.sf_script.specs.Declarations.{fill_at, format_at, format_of, header_at, new_actor_at, new_number_at};
ghost use Rattle.sf_script.specs.Declarations.{new_picture_at, new_queue_at, new_timeline_at, version_at, versioned_format_at};
ghost use Rattle.sf_script.specs.inner.Fits.{ActorFits, IsNew, PictureFits};

use crate::line::Header;
use sf_base::{Format, Items, Rect};
use sf_script_scene::sf_picture::{Fill, Picture};
use sf_script_scene::{QueueDecl, Scene, most_actors};
use sf_script_words::{
    Cause, WordFault, colour, demand, end, fixed, is, next_word, number32, number64, word, wrong,
};
use std::alloc::Global;

/// The version of a script, 1 or 2, and what follows it in the line.
#[tactic(auto, unfolding(crate::specs::Declarations::version_at))]
fn version(line: &[u8]) -> Result<(u32, &[u8]), WordFault>
    ensures given { Gives (λ x. (x.0, words_of x.1.now)) result (version_at (words_of line.now)) }
    ensures low { IfOk result (λ x. 1 ≤ x.0) }
    ensures high { IfOk result (λ x. x.0 ≤ 2) }
{
    let (version, rest) = number32(line, 1, u32::MAX)?;
    demand(version == 1 || version == 2, line, Cause::WrongVersion)?;
    Ok((version, rest))
}

/// `scene VERSION W H PERIOD`
#[tactic(auto, unfolding(crate::specs::Declarations::header_at))]
pub fn header_line(line: &[u8]) -> Result<Header, WordFault>
    ensures given { Gives (λ x. x) result (header_at (words_of line.now)) }
    ensures fits { IfOk result (λ h. IsHeader h.version h.width h.height h.period) }
{
    let (version, rest) = version(line)?;
    let (width, rest) = number32(rest, 1, 1024)?;
    let (height, rest) = number32(rest, 1, 1024)?;
    let (period, rest) = number64(rest, 1_000_000, 1_000_000_000)?;
    end(rest)?;
    Ok(Header {
        version,
        width,
        height,
        period,
    })
}

/// A width or height of a buffer or a fill, in pixels.
fn side(line: &[u8]) -> Result<(u32, &[u8]), WordFault>
    ensures given { Gives (λ x. (x.0, words_of x.1.now)) result (number_at 1 512 (words_of line.now)) }
    ensures range { IfOk result (λ x. (1 ≤ x.0) × (x.0 ≤ 512)) }
{
    number32(line, 1, 512)
}

/// `timeline T`
#[tactic(auto, unfolding(crate::specs::Declarations::new_timeline_at))]
pub fn timeline_line(scene: &Scene, line: &[u8]) -> Result<u32, WordFault>
    ensures given { Gives (λ x. x) result (new_timeline_at scene.now (words_of line.now)) }
    ensures fits { IfOk result (λ t. IsNew IsTimeline (has_timeline scene.now.timelines t) t) }
{
    let (number, rest) = number32(line, 1, 64)?;
    demand(!scene.has_timeline(number), line, Cause::Twice)?;
    end(rest)?;
    Ok(number)
}

/// `queue Q BW BH`
#[tactic(auto, unfolding(crate::specs::Declarations::new_queue_at))]
pub fn queue_line(scene: &Scene, line: &[u8]) -> Result<QueueDecl, WordFault>
    ensures given { Gives (λ x. x) result (new_queue_at scene.now (words_of line.now)) }
    ensures fits { IfOk result (λ q. IsNew IsQueue (has_queue scene.now.queues q.number) q) }
{
    let (number, rest) = number32(line, 1, 16)?;
    demand(!scene.has_queue(number), line, Cause::Twice)?;
    let (width, rest) = side(rest)?;
    let (height, rest) = side(rest)?;
    end(rest)?;
    Ok(QueueDecl {
        number,
        width,
        height,
    })
}

/// The format of a picture.
fn format_in(word: &[u8]) -> Option<Format>
    ensures { result ≡ format_of word.now }
{
    if is(word, b"rgba") {
        Some(Format::Rgba)
    } else if is(word, b"rgbx") {
        Some(Format::Rgbx)
    } else if is(word, b"rgb565") {
        Some(Format::Rgb565)
    } else {
        None
    }
}

/// `format F`, or nothing
#[tactic(auto, unfolding(crate::specs::Declarations::format_at))]
fn format(line: &[u8]) -> Result<Format, WordFault>
    ensures { Gives (λ x. x) result (format_at (words_of line.now)) }
{
    if next_word(line).is_none() {
        return Ok(Format::Rgba);
    }
    let named = fixed(line, b"format")?;
    let (name, rest) = word(named)?;
    let Some(format) = format_in(name) else {
        return Err(wrong(named, Cause::BadWord));
    };
    end(rest)?;
    Ok(format)
}

/// The end of a `picture` line.
fn versioned_format(version: u32, line: &[u8]) -> Result<Format, WordFault>
    ensures given { Gives (λ x. x) result (versioned_format_at version (words_of line.now)) }
    ensures first { IfOk result (λ f. version ≡ 1 → f ≡ Rgba) }
{
    if version == 2 {
        return format(line);
    }
    end(line)?;
    Ok(Format::Rgba)
}

/// `picture P BW BH`, with `format F` behind it in version 2 or without
#[tactic(auto, unfolding(crate::specs::Declarations::new_picture_at))]
pub fn picture_line(alloc: Global, scene: &Scene, line: &[u8]) -> Result<Picture, WordFault>
    ensures given { Gives (λ x. x) result (new_picture_at scene.now (words_of line.now)) }
    ensures fits { IfOk result (PictureFits scene.now) }
{
    let (number, rest) = number32(line, 1, 256)?;
    demand(!scene.has_picture(number), line, Cause::Twice)?;
    let (width, rest) = side(rest)?;
    let (height, rest) = side(rest)?;
    let format = versioned_format(scene.version, rest)?;
    Ok(Picture {
        number,
        width,
        height,
        fills: Items::new(Vec::new(alloc)),
        format,
    })
}

/// `fill FX FY FW FH COLOUR`
#[tactic(auto, unfolding(crate::specs::Declarations::fill_at))]
pub fn fill_line(line: &[u8]) -> Result<Fill, WordFault>
    ensures given { Gives (λ x. x) result (fill_at (words_of line.now)) }
    ensures ranges { IfOk result IsFill }
{
    let (x, rest) = number32(line, 0, 511)?;
    let (y, rest) = number32(rest, 0, 511)?;
    let (width, rest) = side(rest)?;
    let (height, rest) = side(rest)?;
    let (colour, rest) = colour(rest)?;
    end(rest)?;
    let rect = Rect {
        x: x as i32,
        y: y as i32,
        width,
        height,
    };
    Ok(Fill { rect, colour })
}

/// `actor A`
#[tactic(auto, unfolding(crate::specs::Declarations::new_actor_at))]
pub fn actor_line(scene: &Scene, line: &[u8]) -> Result<u32, WordFault>
    ensures given { Gives (λ x. x) result (new_actor_at scene.now (words_of line.now)) }
    ensures fits { IfOk result (ActorFits scene.now) }
{
    let (number, rest) = number32(line, 1, most_actors(scene.version))?;
    demand(!scene.has_actor(number), line, Cause::Twice)?;
    end(rest)?;
    Ok(number)
}
