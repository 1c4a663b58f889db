//! The readers of what a line names: declared numbers, and names of an actor.
ghost use Rattle.std.specs.Prelude.{◌≡◌, true, length, IfOk};
ghost use Rattle.sf_script_words.specs.Text.{words_of};
ghost use Rattle.sf_script_words.specs.Reading.{Gives};
ghost use Rattle.sf_script_scene.specs.Ranges.{IsName};
ghost use Rattle.sf_script_scene.specs.Scene.{has_picture, has_queue, has_timeline};
ghost use Rattle.sf_script.specs.inner.Fits.{NameFits};
ghost use Rattle.sf_script.specs.inner.Memory.{GivesUnless};
ghost use Rattle.sf_script.specs.Mentions.{bound_name_at, declared_picture_at, declared_queue_at, declared_timeline_at, timeline_of, used_name_at};

use crate::draft::Draft;
use crate::fault::LineFault;
use crate::line::BoundName;
use sf_base::Items;
use sf_script_scene::Scene;
use sf_script_words::{Cause, WordFault, demand, name, number_within, number32, word, wrong};
use std::alloc::Global;

/// The number of a declared queue, and what is left of the line behind it.
#[tactic(auto, unfolding(crate::specs::Mentions::declared_queue_at))]
pub fn declared_queue<'a>(scene: &Scene, line: &'a [u8]) -> Result<(u32, &'a [u8]), WordFault>
    ensures given { Gives (λ x. (x.0, words_of x.1.now)) result (declared_queue_at scene.now (words_of line.now)) }
    ensures declared { IfOk result (λ x. has_queue scene.now.queues x.0 ≡ true) }
{
    let (number, rest) = number32(line, 1, 16)?;
    demand(scene.has_queue(number), line, Cause::Undefined)?;
    Ok((number, rest))
}

/// The number of a declared picture, and what is left of the line behind it.
#[tactic(auto, unfolding(crate::specs::Mentions::declared_picture_at))]
pub fn declared_picture<'a>(scene: &Scene, line: &'a [u8]) -> Result<(u32, &'a [u8]), WordFault>
    ensures given { Gives (λ x. (x.0, words_of x.1.now)) result (declared_picture_at scene.now (words_of line.now)) }
    ensures declared { IfOk result (λ x. has_picture scene.now.pictures x.0 ≡ true) }
{
    let (number, rest) = number32(line, 1, 256)?;
    demand(scene.has_picture(number), line, Cause::Undefined)?;
    Ok((number, rest))
}

/// The number of a declared timeline, by the word with which what is left of the line begins. The
/// words that are left are counted where it is at fault alone.
#[tactic(auto, unfolding(crate::specs::Mentions::timeline_of))]
pub fn timeline_in(scene: &Scene, line: &[u8], word: &[u8]) -> Result<u32, WordFault>
    ensures given { Gives (λ x. x) result (timeline_of scene.now (length (words_of line.now)) word.now) }
    ensures declared { IfOk result (λ x. has_timeline scene.now.timelines x ≡ true) }
{
    let Some(number) = number_within(word, 1, 64) else {
        return Err(wrong(line, Cause::BadWord));
    };
    let number = number as u32;
    if scene.has_timeline(number) {
        Ok(number)
    } else {
        Err(wrong(line, Cause::Undefined))
    }
}

/// The number of a declared timeline, and what is left of the line behind it.
#[tactic(auto, unfolding(crate::specs::Mentions::declared_timeline_at))]
pub fn declared_timeline<'a>(scene: &Scene, line: &'a [u8]) -> Result<(u32, &'a [u8]), WordFault>
    ensures given { Gives (λ x. (x.0, words_of x.1.now)) result (declared_timeline_at scene.now (words_of line.now)) }
    ensures declared { IfOk result (λ x. has_timeline scene.now.timelines x.0 ≡ true) }
{
    let (word, rest) = word(line)?;
    let number = timeline_in(scene, line, word)?;
    Ok((number, rest))
}

/// The place of a name that an earlier line of the actor bound, and what is left of the line
/// behind it.
#[tactic(auto, unfolding(crate::specs::Mentions::used_name_at))]
pub fn used_name<'a>(draft: &Draft, line: &'a [u8]) -> Result<(u32, &'a [u8]), WordFault>
    ensures given { Gives (λ x. (x.0, words_of x.1.now)) result (used_name_at draft.now.names (words_of line.now)) }
    ensures range { IfOk result (λ x. IsName x.0) }
{
    let (name, rest) = name(line)?;
    match draft.place(name) {
        Some(place) => Ok((place, rest)),
        None => Err(wrong(line, Cause::Undefined)),
    }
}

/// A name that a step binds, and what is left of the line behind it. An actor has at most 32
/// names.
#[tactic(auto, unfolding(crate::specs::Mentions::bound_name_at))]
pub fn bound_name<'a>(
    alloc: Global,
    draft: &Draft,
    line: &'a [u8],
) -> Result<(BoundName, &'a [u8]), LineFault>
    ensures given { GivesUnless (λ x. (x.0, words_of x.1.now)) result (bound_name_at draft.now.names (words_of line.now)) }
    ensures range { IfOk result (λ x. IsName x.0.place) }
    ensures room { IfOk result (λ x. NameFits draft.now.names x.0.new_name) }
{
    let (name, rest) = name(line)?;
    if let Some(place) = draft.place(name) {
        return Ok((
            BoundName {
                place,
                new_name: None,
            },
            rest,
        ));
    }
    let Some(place) = draft.next_place() else {
        return Err(LineFault::Word(wrong(line, Cause::Limit)));
    };
    let text = Items::new(Vec::from_slice(alloc, name)?);
    Ok((
        BoundName {
            place,
            new_name: Some(text),
        },
        rest,
    ))
}
