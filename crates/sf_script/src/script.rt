//! From the bytes of a script to the scene that they spell, or to its first fault: what `sf_app`
//! calls before a run.
ghost use Rattle.std.specs.Prelude.{◌≡◌, ◌≤◌, ◌<◌, ◌+◌, ◌==◌, [], IfOk, length, true};
ghost use Rattle.std.specs.Str.{is_utf8};
ghost use Rattle.sf_script_words.specs.Text.{lines_of, words_of};
ghost use Rattle.sf_script.specs.Draft.{has_room, is_of, picks_of};
ghost use Rattle.sf_script.specs.inner.Fits.{LineFits};
ghost use Rattle.sf_script.specs.inner.Memory.{GivesUnless};
ghost use Rattle.sf_script.specs.Parse.{GivesDraft, GivesScene, parsed_of, too_long};
ghost use Rattle.sf_script.specs.Script.{draft_at, form_at, is_skipped, line_at, lines_at, placed, scene_at, script_of, words_at};

use crate::declarations::{
    actor_line, fill_line, header_line, picture_line, queue_line, timeline_line,
};
use crate::draft::Draft;
use crate::fault::{LineFault, ParseFault, ScriptFault};
use crate::keywords::first_keyword;
use crate::line::{Keyword, Line};
use crate::order::order_line;
use crate::second::{capture_line, display_line, hit_line, mirror_line, stack_line};
use crate::steps::step_line;
use sf_base::Items;
use sf_script_scene::Scene;
use sf_script_words::{
    Cause, WordFault, count_words, demand, end, next_line, next_word, trim, word, wrong,
};
use std::alloc::Global;

/// The line behind its first word, except for steps and picks.
#[tactic(auto, unfolding(crate::specs::Script::form_at))]
fn form(alloc: Global, draft: &Draft, keyword: Keyword, line: &[u8]) -> Result<Line, LineFault>
    requires version { is_of (draft.now.scene.version == 2) keyword ≡ true }
    requires room { has_room draft.now.scene keyword ≡ true }
    ensures given { GivesUnless (λ x. x) result (form_at draft.now keyword (words_of line.now)) }
    ensures fits { IfOk result (LineFits draft.now) }
    ensures few { IfOk result (λ l. length (picks_of l) ≤ length line.now) }
{
    let scene = draft.scene();
    match keyword {
        Keyword::Scene => Ok(Line::Scene(header_line(line)?)),
        Keyword::Timeline => Ok(Line::Timeline(timeline_line(scene, line)?)),
        Keyword::Display => Ok(Line::Display(display_line(scene, line)?)),
        Keyword::Stack => {
            let (layer, stack) = stack_line(draft, line)?;
            Ok(Line::Stack(layer, stack))
        }
        Keyword::Capture => Ok(Line::Capture(capture_line(scene, line)?)),
        Keyword::Hit => Ok(Line::Hit(hit_line(scene, line)?)),
        Keyword::Mirror => {
            let (layer, mirrored) = mirror_line(scene, line)?;
            Ok(Line::Mirror(layer, mirrored))
        }
        Keyword::Queue => Ok(Line::Queue(queue_line(scene, line)?)),
        Keyword::Picture => Ok(Line::Picture(picture_line(alloc, scene, line)?)),
        Keyword::Fill => Ok(Line::Fill(fill_line(line)?)),
        Keyword::Actor => Ok(Line::Actor(actor_line(scene, line)?)),
        Keyword::Step(form) => Ok(Line::Step(step_line(alloc, draft, form, line)?)),
        Keyword::Order => Ok(Line::Order(Items::new(order_line(alloc, scene, line)?))),
        Keyword::End => {
            end(line)?;
            Ok(Line::End)
        }
    }
}

/// The words of a line that is not skipped.
#[tactic(auto, unfolding(crate::specs::Script::words_at))]
fn line_words(alloc: Global, draft: &Draft, line: &[u8]) -> Result<Line, LineFault>
    ensures given { GivesUnless (λ x. x) result (words_at draft.now (words_of line.now)) }
    ensures fits { IfOk result (LineFits draft.now) }
    ensures few { IfOk result (λ l. length (picks_of l) ≤ length line.now) }
{
    let (first, rest) = word(line)?;
    let is_second = draft.scene().version == 2;
    let Some(keyword) = first_keyword(is_second, draft.has_any_actor(), first) else {
        return Err(LineFault::Word(wrong(line, Cause::UnknownWord)));
    };
    demand(draft.may_be_followed(keyword), line, Cause::OutOfOrder)?;
    demand(draft.leaves_room(keyword), line, Cause::Limit)?;
    form(alloc, draft, keyword, rest)
}

/// Whether a line is UTF-8.
fn is_text(line: &[u8]) -> bool
    ensures { result ≡ is_utf8 line.now }
{
    matches!(std::str::from_utf8(line), Ok(_))
}

/// A line that is not skipped.
#[tactic(auto, unfolding(crate::specs::Script::line_at), using(sf_script_words::proofs::Sets::word_counts))]
fn whole_line(alloc: Global, draft: &Draft, line: &[u8]) -> Result<Line, LineFault>
    ensures given { GivesUnless (λ x. x) result (line_at draft.now line.now) }
    ensures fits { IfOk result (LineFits draft.now) }
    ensures few { IfOk result (λ l. length (picks_of l) ≤ length line.now) }
{
    if !is_text(line) {
        return Err(LineFault::Word(WordFault {
            left: count_words(line) + 1,
            cause: Cause::NotUtf8,
        }));
    }
    line_words(alloc, draft, line)
}

/// Whether a line is empty or a comment.
#[tactic(auto, unfolding(crate::specs::Script::is_skipped))]
fn skips(line: &[u8]) -> bool
    ensures { result ≡ is_skipped (words_of line.now) }
{
    match next_word(line) {
        Some((word, _)) => word.first() == Some(&b'#'),
        None => true,
    }
}

/// A fault in the line with this number.
#[tactic(auto, using(sf_script_words::proofs::Sets::word_counts))]
fn place(number: u32, line: &[u8], fault: WordFault) -> ScriptFault
    requires { length line.now ≤ 1048576 }
    ensures { result ≡ placed number line.now fault }
{
    let words = count_words(line) + 1;
    ScriptFault {
        line: number,
        word: words.saturating_sub(fault.left) as u32,
        cause: fault.cause.number(),
    }
}

/// What is spelled after the line with this number, which may be one that is skipped.
#[tactic(auto, unfolding(crate::specs::Script::draft_at))]
fn draft_with(alloc: Global, draft: Draft, number: u32, line: &[u8]) -> Result<Draft, ParseFault>
    requires few { length draft.scene.order + length line.now ≤ 1048576 }
    ensures given { GivesDraft (λ d. d) result (draft_at number draft line.now) }
    ensures few { IfOk result (λ d. length d.scene.order ≤ length draft.scene.order + length line.now) }
{
    if skips(line) {
        return Ok(draft);
    }
    match whole_line(alloc, &draft, line) {
        Ok(next) => match draft.with(alloc, next) {
            Ok(draft) => Ok(draft),
            Err(_) => Err(ParseFault::NoMemory),
        },
        Err(LineFault::NoMemory) => Err(ParseFault::NoMemory),
        Err(LineFault::Word(fault)) => Err(ParseFault::Script(place(number, line, fault))),
    }
}

/// The scene of all lines, of which the next would have this number.
#[tactic(auto, unfolding(crate::specs::Script::scene_at))]
fn scene(draft: Draft, number: u32) -> Result<Scene, ParseFault>
    ensures { GivesScene result (scene_at number draft) }
{
    if draft.is_ended() {
        return Ok(draft.into_scene());
    }
    Err(ParseFault::Script(ScriptFault {
        line: number,
        word: 0,
        cause: Cause::Unended.number(),
    }))
}

/// The scene that a script spells.
#[tactic(auto, unfolding(crate::specs::Script::lines_at, crate::specs::Script::script_of))]
fn whole_script(alloc: Global, bytes: &[u8]) -> Result<Scene, ParseFault>
    requires { length bytes.now ≤ 1048576 }
    ensures { GivesScene result (script_of bytes.now) }
{
    let mut draft = Draft::new(alloc);
    let mut number = 1;
    let mut rest = bytes;
    while let Some((text, after)) = next_line(rest) {
        draft = draft_with(alloc, draft, number, trim(text))?;
        number += 1;
        rest = after;
    }
    scene(draft, number)
}

/// The longest script, in bytes.
pub const LONGEST_SCRIPT: usize = 1_048_576;

/// The scene that a script spells, or the place and the cause of its first fault. More than
/// 1,048,576 bytes are none, with line 0, word 0 and cause 9.
#[tactic(auto, unfolding(crate::specs::Parse::parsed_of))]
pub fn parse(alloc: Global, bytes: &[u8]) -> Result<Scene, ParseFault>
    ensures { GivesScene result (parsed_of bytes.now) }
{
    if bytes.len() > LONGEST_SCRIPT {
        return Err(ParseFault::Script(ScriptFault {
            line: 0,
            word: 0,
            cause: Cause::Limit.number(),
        }));
    }
    whole_script(alloc, bytes)
}
