//! The points of a step's fence, as the script has them.
ghost use Rattle.std.specs.Prelude.{◌≡◌, ◌++◌, ◌∷◌, [], OnOk};

use sf_base::NoMemory;
use std::alloc::Global;
use std::marker::Model;

/// The points of the `fence` parts of a step, as timeline and value, in the order of the script.
/// Contracts see the list.
pub struct Points {
    list: Vec<(u32, u64)>,
}

impl Model for Points {
    ghost use Rattle.std.specs.Prelude.{List, ℕ};

    ghost Value = { List (ℕ × ℕ) };

    ghost view = { λ p. p.list.items };
}

impl Points {
    /// No points. It takes no memory.
    pub fn none(alloc: Global) -> Points
        ensures { result ≡ [] }
    {
        Points {
            list: Vec::new(alloc),
        }
    }

    /// The points, in order.
    pub fn as_slice(&self) -> &[(u32, u64)]
        ensures { result.now ≡ self.now }
    {
        &self.list
    }

    /// One more point, at the end.
    pub fn push(&mut self, timeline: u32, value: u64) -> Result<(), NoMemory>
        ensures ok { OnOk result (self.new ≡ self.old ++ (timeline, value) ∷ []) }
    {
        self.list.push((timeline, value))?;
        Ok(())
    }
}

impl Drop for Points {
    fn drop(self) {
        let Points { list: _ } = self;
    }
}
