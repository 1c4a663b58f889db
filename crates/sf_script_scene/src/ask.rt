//! What a scene has declared so far: the reader of a script asks it line by line.
ghost use Rattle.std.specs.Prelude.{◌≡◌, length};
ghost use Rattle.sf_script_scene.specs.Scene.{fills_so_far, has_actor, has_capture, has_display, has_hit, has_layer, has_picture, has_queue, has_timeline, last_of, steps_so_far};

use crate::scene::Scene;

impl Scene {
    /// Whether the timeline with this number is declared.
    pub fn has_timeline(&self, number: u32) -> bool
        ensures { result ≡ has_timeline self.now.timelines number }
    {
        self.timelines.as_slice().iter().any(|t| *t == number)
    }

    /// Whether the queue with this number is declared.
    pub fn has_queue(&self, number: u32) -> bool
        ensures { result ≡ has_queue self.now.queues number }
    {
        self.queues.as_slice().iter().any(|q| q.number == number)
    }

    /// Whether the picture with this number is declared.
    pub fn has_picture(&self, number: u32) -> bool
        ensures { result ≡ has_picture self.now.pictures number }
    {
        self.pictures.as_slice().iter().any(|p| p.number == number)
    }

    /// Whether the actor with this number is declared.
    pub fn has_actor(&self, number: u32) -> bool
        ensures { result ≡ has_actor self.now.actors number }
    {
        self.actors.as_slice().iter().any(|a| a.number == number)
    }

    /// Whether the further display with this number is declared.
    pub fn has_display(&self, number: u32) -> bool
        ensures { result ≡ has_display self.now.displays number }
    {
        self.displays.as_slice().iter().any(|d| d.number == number)
    }

    /// Whether the capture with this number is declared.
    pub fn has_capture(&self, number: u32) -> bool
        ensures { result ≡ has_capture self.now.captures number }
    {
        self.captures.as_slice().iter().any(|c| c.number == number)
    }

    /// Whether the hit test with this number is declared.
    pub fn has_hit(&self, number: u32) -> bool
        ensures { result ≡ has_hit self.now.hits number }
    {
        self.hits.as_slice().iter().any(|h| h.number == number)
    }

    /// Whether a mirror is declared that shows in the layer with this number.
    pub fn has_mirror(&self, layer: u32) -> bool
        ensures { result ≡ has_layer self.now.mirrors layer }
    {
        self.mirrors.as_slice().iter().any(|m| m.0 == layer)
    }

    /// How many fills the last picture has, 0 where there is no picture.
    pub fn last_fills(&self) -> usize
        ensures { result ≡ fills_so_far (last_of self.now.pictures) }
    {
        match self.pictures.as_slice() {
            [.., last] => last.fills.len(),
            [] => 0,
        }
    }

    /// How many steps the last actor has, 0 where there is no actor.
    pub fn last_steps(&self) -> usize
        ensures { result ≡ steps_so_far (last_of self.now.actors) }
    {
        match self.actors.as_slice() {
            [.., last] => last.steps.len(),
            [] => 0,
        }
    }
}
