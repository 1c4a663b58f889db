//! Notes about layers that are found by a layer's number, so that a tree of many layers is walked
//! once for all of them.
ghost use Rattle.std.specs.Prelude.{◌≡◌, IfOk};
ghost use Rattle.sf_output_shown.specs.ByLayer.{IsIndex, first_for};

use sf_base::{LayerId, NoMemory};
use std::alloc::Global;
use std::collections::BTreeMap;
use std::marker::Model;

/// What is noted of layers, found by a layer's number. Contracts see the list of the notes.
pub struct ByLayer<T> {
    notes: Vec<(LayerId, T)>,
    firsts: BTreeMap<u32, T>,
}

impl<T> Model for ByLayer<T> {
    ghost use Rattle.std.specs.Prelude.{List};
    ghost use Rattle.sf_base.specs.declared.ids.LayerId.{LayerId};
    ghost use Rattle.sf_output_shown.specs.ByLayer.{IsIndex};

    ghost Value = { List (LayerId × T) };

    ghost view = { λ s. s.notes.items };

    ghost invariant = { λ s. IsIndex s.notes.items s.firsts };
}

/// The first note of each layer by its number.
fn firsts_of<T: Copy>(alloc: Global, notes: &[(LayerId, T)]) -> Result<BTreeMap<u32, T>, NoMemory>
    ensures { IfOk result (IsIndex notes.now) }
{
    let mut firsts = BTreeMap::new(alloc);
    let mut index = notes.len();
    while index > 0 {
        index -= 1;
        let note = notes[index];
        firsts.insert(note.0.0, note.1)?;
    }
    Ok(firsts)
}

impl<T: Copy> ByLayer<T> {
    /// These notes. Of several of one layer the first counts.
    pub fn new(alloc: Global, notes: Vec<(LayerId, T)>) -> Result<ByLayer<T>, NoMemory>
        ensures { IfOk result (λ made. made ≡ notes.items) }
    {
        let firsts = firsts_of(alloc, &notes)?;
        Ok(ByLayer { notes, firsts })
    }

    /// What is noted of a layer, the first where there are several, if anything is.
    pub fn of(&self, id: LayerId) -> Option<T>
        ensures { result ≡ first_for self.now id }
    {
        self.firsts.get(&id.0).copied()
    }
}

impl<T: Drop> Drop for ByLayer<T> {
    fn drop(self) {
        let ByLayer {
            notes: _,
            firsts: _,
        } = self;
    }
}
