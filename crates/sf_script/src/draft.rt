//! What the lines so far spell: the scene, and what may follow. A script is read by adding one line
//! to it after another.
ghost use Rattle.std.specs.Prelude.{◌≡◌, ◌==◌, ◌<◌, ◌≤◌, ◌+◌, ◌++◌, ◌∷◌, [], IfOk, IfSome, None, Some, if◌then◌else◌, length, nat_lt};
ghost use Rattle.sf_script_scene.specs.Limits.{IsHeader};
ghost use Rattle.sf_script_scene.specs.Scene.{SceneValue, bare_scene, has_layer};
ghost use Rattle.sf_script.specs.Draft.{TellsLayers, draft_after, has_room, is_any, is_ended, is_led, may_follow, may_follow_rank};
ghost use Rattle.sf_script.specs.Draft.{names_after, no_lines, picks_of, place_of, rank_of_keyword, rank_of_line, scene_after};
ghost use Rattle.sf_script.specs.inner.Fits.{LineFits, SceneFits};

use crate::line::{Header, Keyword, Line};
use sf_base::{Items, NoMemory};
use sf_script_scene::Scene;
use std::alloc::Global;
use std::collections::BTreeSet;
use std::marker::Model;

const MOST_FILLS: usize = 1024;

const MOST_STEPS: usize = 4096;

const MOST_MIRRORS: usize = 8;

const MOST_NAMES: usize = 32;

const END_RANK: u32 = 6;

/// What the lines so far spell: their scene, the rank of the last one, and the names of the last
/// actor. A set says which layers have a stack, as there may be as many as lines.
#[derive(Drop)]
pub struct Draft {
    scene: Scene,
    rank: Option<u32>,
    names: Vec<Items<u8>>,
    // The layers for which a stack is declared.
    layers: BTreeSet<u32>,
}

impl Model for Draft {
    ghost use Rattle.sf_script.specs.Draft.{DraftValue, IsDraft};

    ghost Value = { DraftValue };

    ghost view = { λ s. record { scene = s.scene; rank = s.rank; names = s.names.items } };

    ghost invariant = { λ s. IsDraft s.scene s.names.items s.layers };
}

/// Where a keyword's lines stand in a script: ranks never fall from one line to the next.
fn rank_of(keyword: Keyword) -> u32
    ensures { result ≡ rank_of_keyword keyword }
{
    match keyword {
        Keyword::Scene => 0,
        Keyword::Timeline
        | Keyword::Display
        | Keyword::Stack
        | Keyword::Capture
        | Keyword::Hit
        | Keyword::Mirror => 1,
        Keyword::Queue => 2,
        Keyword::Picture | Keyword::Fill => 3,
        Keyword::Actor | Keyword::Step(_) => 4,
        Keyword::Order => 5,
        Keyword::End => 6,
    }
}

/// The rank of a line that was read, which is that of its keyword.
fn line_rank(line: &Line) -> u32
    ensures { result ≡ rank_of_line line.now }
{
    match line {
        Line::Scene(_) => 0,
        Line::Timeline(_)
        | Line::Display(_)
        | Line::Stack(_, _)
        | Line::Capture(_)
        | Line::Hit(_)
        | Line::Mirror(_, _) => 1,
        Line::Queue(_) => 2,
        Line::Picture(_) | Line::Fill(_) => 3,
        Line::Actor(_) | Line::Step(_) => 4,
        Line::Order(_) => 5,
        Line::End => 6,
    }
}

/// Whether a line with this first word may follow one of this rank, or none.
fn follows(rank: Option<u32>, keyword: Keyword) -> bool
    ensures { result ≡ may_follow_rank rank keyword }
{
    let is_scene = matches!(keyword, Keyword::Scene);
    match rank {
        None => is_scene,
        Some(rank) => !is_scene && rank <= rank_of(keyword) && rank != END_RANK,
    }
}

/// The place of a name among these.
fn place_among(names: &[Items<u8>], name: &[u8]) -> Option<usize>
    ensures place { result ≡ place_of name.now names.now }
    ensures range { IfSome result (λ place. place < length names.now) }
{
    names.iter().position(|n| n.as_slice() == name)
}

/// The names of the last actor after one more line.
fn names_with(
    alloc: Global,
    mut names: Vec<Items<u8>>,
    line: &Line,
) -> Result<Vec<Items<u8>>, NoMemory>
    ensures { IfOk result (λ v. v.items ≡ names_after names.items line.now) }
{
    match line {
        Line::Actor(_) => names.clear(),
        Line::Step(named) => {
            if let Some(name) = &named.new_name {
                names.push(Items::new(Vec::from_slice(alloc, name.as_slice())?))?;
            }
        }
        _ => {}
    }
    Ok(names)
}

/// The layers with a stack after one more line.
#[tactic(auto, using(crate::proofs::DraftLemmas::layers_more))]
fn layers_with(
    alloc: Global,
    mut layers: BTreeSet<u32>,
    line: &Line,
) -> Result<BTreeSet<u32>, NoMemory>
    ensures { IfOk result (λ new. (scene : SceneValue) → TellsLayers layers scene.stacks → TellsLayers new (scene_after scene line.now).stacks) }
{
    match line {
        Line::Scene(_) => Ok(BTreeSet::new(alloc)),
        Line::Stack(layer, _) => {
            layers.insert(*layer)?;
            Ok(layers)
        }
        _ => Ok(layers),
    }
}

/// The scene that a `scene` line begins.
fn begun(alloc: Global, header: Header) -> Scene
    requires { IsHeader header.version header.width header.height header.period }
    ensures { result ≡ bare_scene header.version header.width header.height header.period }
{
    Scene::bare(
        alloc,
        header.version,
        header.width,
        header.height,
        header.period,
    )
}

/// The scene after one more line.
fn scene_with(alloc: Global, scene: Scene, line: Line) -> Result<Scene, NoMemory>
    requires fits { SceneFits scene line }
    requires few { length scene.order + length (picks_of line) ≤ 1048576 }
    ensures { IfOk result (λ s. s ≡ scene_after scene line) }
{
    match line {
        Line::Scene(header) => Ok(begun(alloc, header)),
        Line::Timeline(timeline) => scene.with_timeline(timeline),
        Line::Display(display) => scene.with_display(display),
        Line::Stack(layer, stack) => scene.with_stack((layer, stack)),
        Line::Capture(capture) => scene.with_capture(capture),
        Line::Hit(hit) => scene.with_hit(hit),
        Line::Mirror(layer, mirrored) => scene.with_mirror((layer, mirrored)),
        Line::Queue(queue) => scene.with_queue(queue),
        Line::Picture(picture) => scene.with_picture(picture),
        Line::Fill(fill) => scene.with_fill(fill),
        Line::Actor(number) => scene.with_actor(alloc, number),
        Line::Step(named) => scene.with_step(named.step),
        Line::Order(picks) => scene.with_picks(picks.as_slice()),
        Line::End => Ok(scene),
    }
}

impl Draft {
    /// What no lines spell.
    pub fn new(alloc: Global) -> Draft
        ensures { result ≡ no_lines }
    {
        Draft {
            scene: Scene::bare(alloc, 1, 1, 1, 1_000_000),
            rank: None,
            names: Vec::new(alloc),
            layers: BTreeSet::new(alloc),
        }
    }

    /// The scene of the lines so far.
    pub fn scene(&self) -> &Scene
        ensures { result.now ≡ self.now.scene }
    {
        &self.scene
    }

    /// The scene, if the last line is `end`.
    pub fn into_scene(self) -> Scene
        ensures { result ≡ self.scene }
    {
        let Draft { scene, .. } = self;
        scene
    }

    /// Whether the last line is `end`.
    pub fn is_ended(&self) -> bool
        ensures { result ≡ is_ended self.now.rank }
    {
        match self.rank {
            Some(rank) => rank == END_RANK,
            None => false,
        }
    }

    /// Whether some actor is declared.
    pub fn has_any_actor(&self) -> bool
        ensures { result ≡ is_any self.now.scene.actors }
    {
        !self.scene.actors.as_slice().is_empty()
    }

    /// Whether some picture is declared.
    fn has_any_picture(&self) -> bool
        ensures { result ≡ is_any self.now.scene.pictures }
    {
        !self.scene.pictures.as_slice().is_empty()
    }

    /// Whether a step has an actor before it, and a fill a picture.
    fn leads(&self, keyword: Keyword) -> bool
        ensures { result ≡ is_led self.now.scene keyword }
    {
        match keyword {
            Keyword::Step(_) => self.has_any_actor(),
            Keyword::Fill => self.has_any_picture(),
            _ => true,
        }
    }

    /// Whether a line with this first word may follow.
    pub fn may_be_followed(&self, keyword: Keyword) -> bool
        ensures { result ≡ may_follow self.now keyword }
    {
        follows(self.rank, keyword) && self.leads(keyword)
    }

    /// Whether there is room for one more step, fill or mirror, if this first word begins one.
    pub fn leaves_room(&self, keyword: Keyword) -> bool
        ensures { result ≡ has_room self.now.scene keyword }
    {
        match keyword {
            Keyword::Step(_) => self.scene.last_steps() < MOST_STEPS,
            Keyword::Fill => self.scene.last_fills() < MOST_FILLS,
            Keyword::Mirror => self.scene.mirrors.len() < MOST_MIRRORS,
            _ => true,
        }
    }

    /// Whether a stack is declared for the layer with this number.
    pub fn has_stack(&self, layer: u32) -> bool
        ensures { result ≡ has_layer self.now.scene.stacks layer }
    {
        self.layers.contains(&layer)
    }

    /// The place of a name among those of the last actor.
    pub fn place(&self, name: &[u8]) -> Option<u32>
        ensures place { result ≡ place_of name.now self.now.names }
        ensures range { IfSome result (λ place. place < 32) }
    {
        let place = place_among(&self.names, name)?;
        Some(place as u32)
    }

    /// The place of the next new name of the last actor, if it may have one more.
    pub fn next_place(&self) -> Option<u32>
        ensures { result ≡ (if nat_lt (length self.now.names) 32 then Some (length self.now.names) else None) }
    {
        if self.names.len() < MOST_NAMES {
            Some(self.names.len() as u32)
        } else {
            None
        }
    }

    /// What is spelled with one more line.
    pub fn with(self, alloc: Global, line: Line) -> Result<Draft, NoMemory>
        requires fits { LineFits self line }
        requires few { length self.scene.order + length (picks_of line) ≤ 1048576 }
        ensures { IfOk result (λ d. d ≡ draft_after self line) }
    {
        let Draft {
            scene,
            names,
            layers,
            ..
        } = self;
        let rank = line_rank(&line);
        let names = names_with(alloc, names, &line)?;
        let layers = layers_with(alloc, layers, &line)?;
        let scene = scene_with(alloc, scene, line)?;
        Ok(Draft {
            scene,
            rank: Some(rank),
            names,
            layers,
        })
    }
}
