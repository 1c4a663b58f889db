//! The readers of parts that several forms have: times, sizes, crops and fences.
ghost use Rattle.std.specs.Prelude.{◌≡◌, [], true, length, IfOk, IfSome};
ghost use Rattle.sf_script_words.specs.Text.{words_of};
ghost use Rattle.sf_script_words.specs.Reading.{Gives};
ghost use Rattle.sf_script_scene.specs.Named.{AreKnown, timelines_in};
ghost use Rattle.sf_script_scene.specs.Ranges.{IsAskedSize, IsPart, IsTime};
ghost use Rattle.sf_script_scene.specs.Scene.{has_timeline};
ghost use Rattle.sf_script.specs.inner.Memory.{GivesUnless};
ghost use Rattle.sf_script.specs.Parts.{asked_size_at, cut_point, expected_at, fences_at, moment_at, part_at, point_of, some_part_at, time_at, value_at};

use crate::fault::LineFault;
use crate::mentions::timeline_in;
use sf_script_scene::{Points, Scene};
use sf_script_words::{
    Cause, WordFault, count_words, end, fixed, is, next_word, number_within, number32, number64,
    wrong,
};
use std::alloc::Global;

const LATEST_TIME: u64 = 9_223_372_036_854_775_807;

/// A time in nanoseconds, and what is left of the line behind it.
pub fn moment(line: &[u8]) -> Result<(u64, &[u8]), WordFault>
    ensures given { Gives (λ x. (x.0, words_of x.1.now)) result (moment_at (words_of line.now)) }
    ensures range { IfOk result (λ x. IsTime x.0) }
{
    number64(line, 0, LATEST_TIME)
}

/// A value of a timeline, or a frame number, and what is left of the line behind it.
pub fn value(line: &[u8]) -> Result<(u64, &[u8]), WordFault>
    ensures { Gives (λ x. (x.0, words_of x.1.now)) result (value_at (words_of line.now)) }
{
    number64(line, 0, u64::MAX)
}

/// The end of a line with `size DW DH`, or nothing.
#[tactic(auto, unfolding(crate::specs::Parts::asked_size_at))]
pub fn asked_size(line: &[u8]) -> Result<Option<(u32, u32)>, WordFault>
    ensures given { Gives (λ x. x) result (asked_size_at (words_of line.now)) }
    ensures ranges { IfOk result (λ size. IfSome size IsAskedSize) }
{
    if next_word(line).is_none() {
        return Ok(None);
    }
    let rest = fixed(line, b"size")?;
    let (width, rest) = number32(rest, 0, u32::MAX)?;
    let (height, rest) = number32(rest, 0, u32::MAX)?;
    end(rest)?;
    Ok(Some((width, height)))
}

/// The end of a line with `at TIME`, or nothing.
#[tactic(auto, unfolding(crate::specs::Parts::expected_at))]
pub fn expected(line: &[u8]) -> Result<Option<u64>, WordFault>
    ensures given { Gives (λ x. x) result (expected_at (words_of line.now)) }
    ensures range { IfOk result (λ time. IfSome time IsTime) }
{
    if next_word(line).is_none() {
        return Ok(None);
    }
    let rest = fixed(line, b"at")?;
    let (time, rest) = moment(rest)?;
    end(rest)?;
    Ok(Some(time))
}

/// `time TIME`, if it comes next, and what is left of the line.
#[tactic(auto, unfolding(crate::specs::Parts::time_at))]
pub fn time(line: &[u8]) -> Result<(Option<u64>, &[u8]), WordFault>
    ensures given { Gives (λ x. (x.0, words_of x.1.now)) result (time_at (words_of line.now)) }
    ensures range { IfOk result (λ x. IfSome x.0 IsTime) }
{
    let Some((word, rest)) = next_word(line) else {
        return Ok((None, line));
    };
    if !is(word, b"time") {
        return Ok((None, line));
    }
    let (time, rest) = moment(rest)?;
    Ok((Some(time), rest))
}

/// A part of a buffer, behind `crop`.
#[tactic(auto, unfolding(crate::specs::Parts::some_part_at))]
fn some_part(line: &[u8]) -> Result<(Option<(u32, u32, u32, u32)>, &[u8]), WordFault>
    ensures given { Gives (λ x. (x.0, words_of x.1.now)) result (some_part_at (words_of line.now)) }
    ensures range { IfOk result (λ x. IfSome x.0 IsPart) }
{
    let (left, rest) = number32(line, 0, 511)?;
    let (top, rest) = number32(rest, 0, 511)?;
    let (width, rest) = number32(rest, 1, 512)?;
    let (height, rest) = number32(rest, 1, 512)?;
    Ok((Some((left, top, width, height)), rest))
}

/// `crop FX FY FW FH`, if it comes next, and what is left of the line.
#[tactic(auto, unfolding(crate::specs::Parts::part_at))]
pub fn part(line: &[u8]) -> Result<(Option<(u32, u32, u32, u32)>, &[u8]), WordFault>
    ensures given { Gives (λ x. (x.0, words_of x.1.now)) result (part_at (words_of line.now)) }
    ensures range { IfOk result (λ x. IfSome x.0 IsPart) }
{
    let Some((word, rest)) = next_word(line) else {
        return Ok((None, line));
    };
    if !is(word, b"crop") {
        return Ok((None, line));
    }
    some_part(rest)
}

/// A point, by its two words, each with what is left of the line from it on.
#[tactic(auto, unfolding(crate::specs::Parts::point_of))]
fn point(
    scene: &Scene,
    from_timeline: &[u8],
    from_value: &[u8],
    timeline: &[u8],
    value: &[u8],
) -> Result<(u32, u64), WordFault>
    ensures given { Gives (λ x. x) result (point_of scene.now (length (words_of from_timeline.now)) (length (words_of from_value.now)) timeline.now value.now) }
    ensures declared { IfOk result (λ p. has_timeline scene.now.timelines p.0 ≡ true) }
{
    let number = timeline_in(scene, from_timeline, timeline)?;
    let Some(value) = number_within(value, 0, u64::MAX) else {
        return Err(wrong(from_value, Cause::BadWord));
    };
    Ok((number, value))
}

/// The fault of a line that ends behind the timeline of a point.
#[tactic(auto, unfolding(crate::specs::Parts::cut_point, crate::specs::Mentions::timeline_of))]
fn cut(scene: &Scene, timeline: &[u8]) -> WordFault
    ensures { cut_point scene.now timeline.now ≡ Err result }
{
    let Some(number) = number_within(timeline, 1, 64) else {
        return WordFault {
            left: 1,
            cause: Cause::BadWord,
        };
    };
    if scene.has_timeline(number as u32) {
        WordFault {
            left: 0,
            cause: Cause::MissingWord,
        }
    } else {
        WordFault {
            left: 1,
            cause: Cause::Undefined,
        }
    }
}

/// The end of a line with `fence T V`, as often as it comes.
#[tactic(auto, unfolding(crate::specs::Parts::fences_at))]
pub fn fences(alloc: Global, scene: &Scene, line: &[u8]) -> Result<Points, LineFault>
    ensures given { GivesUnless (λ x. x) result (fences_at scene.now [] (words_of line.now)) }
    ensures known { IfOk result (λ points. AreKnown scene.now.timelines (timelines_in points)) }
{
    let mut points = Points::none(alloc);
    let mut rest = line;
    while let Some((word, after)) = next_word(rest) {
        if !is(word, b"fence") {
            return Err(LineFault::Word(WordFault {
                left: count_words(rest),
                cause: Cause::UnknownWord,
            }));
        }
        let Some((timeline, behind)) = next_word(after) else {
            return Err(LineFault::Word(WordFault {
                left: 0,
                cause: Cause::MissingWord,
            }));
        };
        let Some((value, next)) = next_word(behind) else {
            return Err(LineFault::Word(cut(scene, timeline)));
        };
        let (number, value) = point(scene, after, behind, timeline, value)?;
        points.push(number, value)?;
        rest = next;
    }
    Ok(points)
}
