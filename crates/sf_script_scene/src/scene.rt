//! A scene: all that a run is played from. Its type keeps the ranges and limits that later crates
//! rely on.
ghost use Rattle.std.specs.Prelude.{◌≡◌, ◌*◌};

use crate::declarations::{CaptureDecl, DisplayDecl, HitDecl, Pick, QueueDecl};
use crate::step::ActorScript;
use sf_base::Items;
use sf_picture::Picture;
use std::marker::Model;

/// What a script spells. Its type keeps the ranges and the limits of a script, that what an actor
/// or the order names is declared, and that no number is declared twice; `pixels` shows them to a
/// caller. Lists of declarations keep the order of the script.
#[derive(Drop)]
pub struct Scene {
    /// The version of the script's format, 1 or 2.
    pub version: u32,
    /// The width of the display in pixels, 1 to 1,024.
    pub width: u32,
    /// The height of the display in pixels, 1 to 1,024.
    pub height: u32,
    /// The time from a vsync to the next one in nanoseconds, 1,000,000 to 1,000,000,000.
    pub period: u64,
    /// The declared timelines, 1 to 64.
    pub timelines: Items<u32>,
    /// The declared queues.
    pub queues: Items<QueueDecl>,
    /// The declared pictures with their fills: numbers 1 to 256, at most 1,024 fills in each.
    pub pictures: Items<Picture>,
    /// The declared actors with their steps, at most 4,096 each. They run by rising number.
    pub actors: Items<ActorScript>,
    /// The picks of all `order` lines, one after another.
    pub order: Items<Pick>,
    /// The further displays.
    pub displays: Items<DisplayDecl>,
    /// The stacks that are declared for layers: a layer's number, from 1 on, and its stack. Any
    /// other layer is on stack 0.
    pub stacks: Items<(u32, u32)>,
    /// The captures.
    pub captures: Items<CaptureDecl>,
    /// The hit tests.
    pub hits: Items<HitDecl>,
    /// The mirrors, at most 8: the first layer also shows a copy of the second one and of what
    /// stands below it.
    pub mirrors: Items<(u32, u32)>,
}

impl Model for Scene {
    ghost use Rattle.sf_script_scene.specs.Scene.{SceneValue};
    ghost use Rattle.sf_script_scene.specs.Limits.{IsWithinLimits};

    ghost Value = { SceneValue };

    ghost view = { λ s. record {
      version = s.version;
      width = s.width;
      height = s.height;
      period = s.period;
      timelines = s.timelines;
      queues = s.queues;
      pictures = s.pictures;
      actors = s.actors;
      order = s.order;
      displays = s.displays;
      stacks = s.stacks;
      captures = s.captures;
      hits = s.hits;
      mirrors = s.mirrors;
    } };

    ghost invariant = { λ s. IsWithinLimits (record {
      version = s.version;
      width = s.width;
      height = s.height;
      period = s.period;
      timelines = s.timelines;
      queues = s.queues;
      pictures = s.pictures;
      actors = s.actors;
      order = s.order;
      displays = s.displays;
      stacks = s.stacks;
      captures = s.captures;
      hits = s.hits;
      mirrors = s.mirrors;
    }) };
}

impl Scene {
    ghost use Rattle.sf_script_scene.specs.Limits.{IsWithinLimits};

    /// The number of pixels of the display, at most 1,048,576. Its caller learns all that the type
    /// of a scene keeps.
    pub fn pixels(&self) -> u32
        ensures count { result ≡ self.now.width * self.now.height }
        ensures limits { IsWithinLimits self.now }
    {
        self.width * self.height
    }
}
