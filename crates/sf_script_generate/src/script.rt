//! From a number to the script of a load: `--run gen` plays it.
ghost use Rattle.std.specs.Prelude.{◌≡◌, ◌*◌, IfOk, OnOk, string_bytes};
ghost use Rattle.std.specs.List.{concat};
ghost use Rattle.sf_script_generate.specs.Lines.{GrowsBy};
ghost use Rattle.sf_script_generate.specs.Generator.{actor_lines, after_draws, first_lines, frame_lines, frames_from, lines_of, picture_lines, pictures_from, producers_from};

use crate::draws::Draws;
use crate::lines::{Channels, put, put_fill, put_glass, put_numbered, put_pair, put_position};
use sf_base::NoMemory;
use std::alloc::Global;

/// How many pictures there are.
const PICTURES: u64 = 8;
/// How many producers there are.
const PRODUCERS: u64 = 4;

/// The display, a timeline, and a queue for each producer.
fn put_first(text: &mut String) -> Result<(), NoMemory>
    ensures { OnOk result (GrowsBy first_lines (string_bytes text.old) (string_bytes text.new)) }
{
    put(text, "scene 1 160 120 16666667")?;
    put(text, "timeline 1")?;
    put_numbered(text, "queue ", 1, " 32 32")?;
    put_numbered(text, "queue ", 2, " 32 32")?;
    put_numbered(text, "queue ", 3, " 32 32")?;
    put_numbered(text, "queue ", 4, " 32 32")?;
    Ok(())
}

/// A picture of one colour under a square of another.
fn put_picture(text: &mut String, draws: &mut Draws, p: u64) -> Result<(), NoMemory>
    ensures text { OnOk result (GrowsBy (picture_lines draws.old.state p) (string_bytes text.old) (string_bytes text.new)) }
    ensures draws { OnOk result (draws.new.state ≡ after_draws draws.old.state 9) }
{
    put_numbered(text, "picture ", p, " 32 32")?;
    let (r, g, b) = (draws.below(256), draws.below(256), draws.below(256));
    put_fill(text, r, g, b)?;
    let (x, y) = (draws.below(17), draws.below(17));
    let a = draws.below(256);
    let (r, g, b) = (draws.below(a + 1), draws.below(a + 1), draws.below(a + 1));
    put_glass(text, x, y, Channels { r, g, b, a })?;
    Ok(())
}

/// How a producer begins.
fn put_actor(text: &mut String, draws: &mut Draws, a: u64) -> Result<(), NoMemory>
    ensures text { OnOk result (GrowsBy (actor_lines draws.old.state a) (string_bytes text.old) (string_bytes text.new)) }
    ensures draws { OnOk result (draws.new.state ≡ after_draws draws.old.state 5) }
{
    put_numbered(text, "actor ", a, "")?;
    put_numbered(text, "connect ", a, "")?;
    put_numbered(text, "maxdequeued ", a, " 2")?;
    put_pair(text, "async ", a, " ", draws.below(2))?;
    put(text, "tx 1")?;
    put_numbered(text, "set 1 ", a, " create buffer 0")?;
    let (x, y) = (draws.below(129), draws.below(89));
    put_position(text, a, x, y)?;
    put_pair(text, "set 1 ", a, " z ", draws.below(5))?;
    put_pair(text, "set 1 ", a, " alpha ", draws.below(256))?;
    put_numbered(text, "apply 1 token ", a, "")?;
    Ok(())
}

/// One frame of a producer.
fn put_frame(text: &mut String, draws: &mut Draws, a: u64) -> Result<(), NoMemory>
    ensures text { OnOk result (GrowsBy (frame_lines draws.old.state a) (string_bytes text.old) (string_bytes text.new)) }
    ensures draws { OnOk result (draws.new.state ≡ after_draws draws.old.state 3) }
{
    let picture = 1 + draws.below(8);
    put_numbered(text, "dequeuewait ", a, " as s")?;
    put(text, "request s")?;
    put_numbered(text, "draw s ", picture, "")?;
    put_numbered(text, "queue s ", picture, "")?;
    put_numbered(text, "acquire ", a, " as i")?;
    put(text, "tx 1")?;
    put_numbered(text, "buffer 1 ", a, " i")?;
    let (x, y) = (draws.below(129), draws.below(89));
    put_position(text, a, x, y)?;
    put_numbered(text, "apply 1 token ", a, "")?;
    Ok(())
}

/// All pictures.
fn put_pictures(text: &mut String, draws: &mut Draws) -> Result<(), NoMemory>
    ensures text { OnOk result (GrowsBy (pictures_from draws.old.state) (string_bytes text.old) (string_bytes text.new)) }
    ensures draws { OnOk result (draws.new.state ≡ after_draws draws.old.state 72) }
{
    for p in 1..=PICTURES {
        put_picture(text, draws, p)?;
    }
    Ok(())
}

/// So many frames of a producer.
fn put_frames(text: &mut String, draws: &mut Draws, a: u64, frames: u64) -> Result<(), NoMemory>
    ensures text { OnOk result (GrowsBy (frames_from draws.old.state a frames) (string_bytes text.old) (string_bytes text.new)) }
    ensures draws { OnOk result (draws.new.state ≡ after_draws draws.old.state (3 * frames)) }
{
    for _ in 0..frames {
        put_frame(text, draws, a)?;
    }
    Ok(())
}

/// All producers, with so many frames each.
fn put_producers(text: &mut String, draws: &mut Draws, frames: u64) -> Result<(), NoMemory>
    ensures { OnOk result (GrowsBy (producers_from draws.old.state frames) (string_bytes text.old) (string_bytes text.new)) }
{
    for a in 1..=PRODUCERS {
        put_actor(text, draws, a)?;
        put_frames(text, draws, a, frames)?;
    }
    Ok(())
}

/// The script of the scene that a number generates. Its only error is out of memory.
pub fn generate(alloc: Global, number: u64) -> Result<Vec<u8>, NoMemory>
    ensures { IfOk result (λ text. text.items ≡ concat (lines_of number)) }
{
    let mut text = String::new(alloc);
    let mut draws = Draws { state: number };
    put_first(&mut text)?;
    put_pictures(&mut text, &mut draws)?;
    put_producers(&mut text, &mut draws, 20 + number % 400)?;
    put(&mut text, "end")?;
    Ok(text.into_bytes())
}
