//! A scene grows by one thing at a time, as the lines of a script spell it.
ghost use Rattle.std.specs.Prelude.{◌≡◌, ◌≤◌, ◌<◌, ◌+◌, ◌++◌, ◌∷◌, [], false, length, All, IfOk};
ghost use Rattle.sf_script_scene.specs.Limits.{IsActor, IsHeader, IsPick, IsRgba, StepFits, most_actors};
ghost use Rattle.sf_script_scene.specs.Ranges.{IsCapture, IsDisplay, IsFill, IsHit, IsMirror, IsPicture, IsQueue, IsStack, IsTimeline};
ghost use Rattle.sf_script_scene.specs.Scene.{bare_scene, fills_so_far, has_actor, has_capture, has_display, has_hit, has_layer};
ghost use Rattle.sf_script_scene.specs.Scene.{has_picture, has_queue, has_timeline, last_of, steps_so_far, with_fill, with_step};

use crate::declarations::{CaptureDecl, DisplayDecl, HitDecl, Pick, QueueDecl};
use crate::scene::Scene;
use crate::step::{ActorScript, Step};
use sf_base::{Items, NoMemory};
use sf_picture::{Fill, Picture};
use std::alloc::Global;

/// The last picture gets one more fill.
fn filled(mut pictures: Vec<Picture>, fill: Fill) -> Result<Vec<Picture>, NoMemory>
    ensures { IfOk result (λ v. v.items ≡ with_fill pictures.items fill) }
{
    let Some(mut picture) = pictures.pop() else {
        return Ok(pictures);
    };
    picture.fills.push(fill)?;
    pictures.push(picture)?;
    Ok(pictures)
}

/// The last actor gets one more step.
fn stepped(mut actors: Vec<ActorScript>, step: Step) -> Result<Vec<ActorScript>, NoMemory>
    ensures { IfOk result (λ v. v.items ≡ with_step actors.items step) }
{
    let Some(mut actor) = actors.pop() else {
        return Ok(actors);
    };
    actor.steps.push(step)?;
    actors.push(actor)?;
    Ok(actors)
}

/// A scene grows by one thing at a time. Each call takes the scene and gives the new one;
/// where memory runs out the scene is gone.
impl Scene {
    /// A scene in which nothing is declared and no one is picked. It takes no memory.
    pub fn bare(alloc: Global, version: u32, width: u32, height: u32, period: u64) -> Scene
        requires { IsHeader version width height period }
        ensures { result ≡ bare_scene version width height period }
    {
        Scene {
            version,
            width,
            height,
            period,
            timelines: Items::new(Vec::new(alloc)),
            queues: Items::new(Vec::new(alloc)),
            pictures: Items::new(Vec::new(alloc)),
            actors: Items::new(Vec::new(alloc)),
            order: Items::new(Vec::new(alloc)),
            displays: Items::new(Vec::new(alloc)),
            stacks: Items::new(Vec::new(alloc)),
            captures: Items::new(Vec::new(alloc)),
            hits: Items::new(Vec::new(alloc)),
            mirrors: Items::new(Vec::new(alloc)),
        }
    }

    /// One more timeline.
    pub fn with_timeline(self, timeline: u32) -> Result<Scene, NoMemory>
        requires range { IsTimeline timeline }
        requires first { has_timeline self.timelines timeline ≡ false }
        ensures { IfOk result (λ s. s ≡ record self { timelines = self.timelines ++ timeline ∷ [] }) }
    {
        let Scene { mut timelines, .. } = self;
        timelines.push(timeline)?;
        Ok(Scene { timelines, ..self })
    }

    /// One more queue.
    pub fn with_queue(self, queue: QueueDecl) -> Result<Scene, NoMemory>
        requires range { IsQueue queue }
        requires first { has_queue self.queues queue.number ≡ false }
        ensures { IfOk result (λ s. s ≡ record self { queues = self.queues ++ queue ∷ [] }) }
    {
        let Scene { mut queues, .. } = self;
        queues.push(queue)?;
        Ok(Scene { queues, ..self })
    }

    /// One more picture, with its fills. In version 1 it is of red, green, blue and alpha.
    pub fn with_picture(self, picture: Picture) -> Result<Scene, NoMemory>
        requires range { IsPicture picture }
        requires format { self.version ≡ 1 → IsRgba picture }
        requires first { has_picture self.pictures picture.number ≡ false }
        ensures { IfOk result (λ s. s ≡ record self { pictures = self.pictures ++ picture ∷ [] }) }
    {
        let Scene { mut pictures, .. } = self;
        pictures.push(picture)?;
        Ok(Scene { pictures, ..self })
    }

    /// One more display, in version 2.
    pub fn with_display(self, display: DisplayDecl) -> Result<Scene, NoMemory>
        requires range { IsDisplay display }
        requires version { self.version ≡ 2 }
        requires first { has_display self.displays display.number ≡ false }
        ensures { IfOk result (λ s. s ≡ record self { displays = self.displays ++ display ∷ [] }) }
    {
        let Scene { mut displays, .. } = self;
        displays.push(display)?;
        Ok(Scene { displays, ..self })
    }

    /// The stack of one more layer, as layer and stack, in version 2.
    pub fn with_stack(self, stack: (u32, u32)) -> Result<Scene, NoMemory>
        requires range { IsStack stack }
        requires version { self.version ≡ 2 }
        requires first { has_layer self.stacks stack.0 ≡ false }
        ensures { IfOk result (λ s. s ≡ record self { stacks = self.stacks ++ stack ∷ [] }) }
    {
        let Scene { mut stacks, .. } = self;
        stacks.push(stack)?;
        Ok(Scene { stacks, ..self })
    }

    /// One more capture, in version 2.
    pub fn with_capture(self, capture: CaptureDecl) -> Result<Scene, NoMemory>
        requires range { IsCapture capture }
        requires version { self.version ≡ 2 }
        requires first { has_capture self.captures capture.number ≡ false }
        ensures { IfOk result (λ s. s ≡ record self { captures = self.captures ++ capture ∷ [] }) }
    {
        let Scene { mut captures, .. } = self;
        captures.push(capture)?;
        Ok(Scene { captures, ..self })
    }

    /// One more hit test, in version 2.
    pub fn with_hit(self, hit: HitDecl) -> Result<Scene, NoMemory>
        requires range { IsHit hit }
        requires version { self.version ≡ 2 }
        requires first { has_hit self.hits hit.number ≡ false }
        ensures { IfOk result (λ s. s ≡ record self { hits = self.hits ++ hit ∷ [] }) }
    {
        let Scene { mut hits, .. } = self;
        hits.push(hit)?;
        Ok(Scene { hits, ..self })
    }

    /// One more mirror, of at most 8, in version 2.
    pub fn with_mirror(self, mirror: (u32, u32)) -> Result<Scene, NoMemory>
        requires range { IsMirror mirror }
        requires version { self.version ≡ 2 }
        requires room { length self.mirrors < 8 }
        requires first { has_layer self.mirrors mirror.0 ≡ false }
        ensures { IfOk result (λ s. s ≡ record self { mirrors = self.mirrors ++ mirror ∷ [] }) }
    {
        let Scene { mut mirrors, .. } = self;
        mirrors.push(mirror)?;
        Ok(Scene { mirrors, ..self })
    }

    /// One more fill in the last picture, which has at most 1,024. It takes the fill where there is
    /// no picture.
    pub fn with_fill(self, fill: Fill) -> Result<Scene, NoMemory>
        requires range { IsFill fill }
        requires room { fills_so_far (last_of self.pictures) < 1024 }
        ensures { IfOk result (λ s. s ≡ record self { pictures = with_fill self.pictures fill }) }
    {
        let Scene { pictures, .. } = self;
        let pictures = Items::new(filled(pictures.into_vec(), fill)?);
        Ok(Scene { pictures, ..self })
    }

    /// One more actor, without steps.
    pub fn with_actor(self, alloc: Global, number: u32) -> Result<Scene, NoMemory>
        requires low { 1 ≤ number }
        requires high { number ≤ most_actors self.version }
        requires first { has_actor self.actors number ≡ false }
        ensures { IfOk result (λ s. s ≡ record self { actors = self.actors ++ record { number = number; steps = [] } ∷ [] }) }
    {
        let Scene { mut actors, .. } = self;
        actors.push(ActorScript {
            number,
            steps: Items::new(Vec::new(alloc)),
        })?;
        Ok(Scene { actors, ..self })
    }

    /// One more step of the last actor, which has at most 4,096. It takes the step where there is
    /// no actor.
    pub fn with_step(self, step: Step) -> Result<Scene, NoMemory>
        requires fits { StepFits self step }
        requires room { steps_so_far (last_of self.actors) < 4096 }
        ensures { IfOk result (λ s. s ≡ record self { actors = with_step self.actors step }) }
    {
        let Scene { actors, .. } = self;
        let actors = Items::new(stepped(actors.into_vec(), step)?);
        Ok(Scene { actors, ..self })
    }

    /// More picks, at the end of the order.
    pub fn with_picks(self, picks: &[Pick]) -> Result<Scene, NoMemory>
        requires picks { All (IsPick self.actors) picks.now }
        requires few { length self.order + length picks.now ≤ 1048576 }
        ensures { IfOk result (λ s. s ≡ record self { order = self.order ++ picks.now }) }
    {
        let Scene { order, .. } = self;
        let mut order = order.into_vec();
        order.extend_from_slice(picks)?;
        Ok(Scene {
            order: Items::new(order),
            ..self
        })
    }
}
