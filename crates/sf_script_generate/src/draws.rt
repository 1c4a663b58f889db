//! The sequence of numbers by which one generated script differs from another.
ghost use Rattle.std.specs.Prelude.{◌≡◌, ◌≤◌, ◌<◌};
ghost use Rattle.sf_script_generate.specs.Generator.{after_draws, draw};

/// The sequence from which what varies in a scene is drawn.
#[derive(Drop)]
pub(crate) struct Draws {
    pub(crate) state: u64,
}

impl Draws {
    /// The next draw: a number below k, which is not 0.
    #[tactic(auto, unfolding(crate::specs::Generator::after_draws, crate::specs::Generator::next))]
    pub(crate) fn below(&mut self, k: u64) -> u64
        requires some { 1 ≤ k }
        ensures drawn { result ≡ draw self.old.state 0 k }
        ensures low { result < k }
        ensures moved { self.new.state ≡ after_draws self.old.state 1 }
    {
        self.state = self
            .state
            .wrapping_mul(6_364_136_223_846_793_005)
            .wrapping_add(1_442_695_040_888_963_407);
        (self.state >> 33) % k
    }
}
