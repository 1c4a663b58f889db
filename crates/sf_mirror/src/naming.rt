//! A number for each copy that a mirror shows: the least that no layer has yet.
ghost use Rattle.std.specs.Prelude.{◌≡◌, ◌≤◌, ◌<◌, ◌+◌, ◌++◌, ◌∷◌, [], ℕ, List, IfOk, length, false};
ghost use Rattle.std.specs.List.{All};
ghost use Rattle.sf_base.specs.declared.ids.LayerId.{LayerId as LayerIdValue};
ghost use Rattle.sf_output_shown.specs.Copies.{IsLeastFree, is_free, named};
ghost use Rattle.sf_mirror.specs.inner.Marks.{AreMarks};

use sf_base::{LayerId, NoMemory};
use sf_output_shown::sf_layer::Layer;
use std::alloc::Global;

/// How many numbers have a mark: 0, and all that a copy can get.
const MARKS: usize = 9_218;

/// Marks a number as taken, if it has a mark.
fn mark(marks: &mut Vec<bool>, id: LayerId)
    ensures { (taken : List LayerIdValue) → AreMarks taken marks.old.items → AreMarks (taken ++ id ∷ []) marks.new.items }
{
    let at = id.0 as usize;
    if at < marks.len() {
        marks[at] = true;
    }
}

/// The marks of the numbers that are taken.
fn marks_of(alloc: Global, taken: &[LayerId]) -> Result<Vec<bool>, NoMemory>
    ensures { IfOk result (λ marks. AreMarks taken.now marks.items) }
{
    let mut marks = vec![in alloc; false; MARKS]?;
    for id in taken {
        mark(&mut marks, *id);
    }
    Ok(marks)
}

/// Whether a number is not taken.
fn is_free(marks: &[bool], number: u32) -> bool
    requires { number < length marks.now }
    ensures { (taken : List LayerIdValue) → AreMarks taken marks.now → result ≡ is_free taken number }
{
    !marks[number as usize]
}

/// The least number from 1 that is not taken, where all below this one are.
fn least_free(taken: &[LayerId], marks: &[bool], from: u32) -> u32
    requires low { 1 ≤ from }
    requires few { length taken.now ≤ 9216 }
    requires marks { AreMarks taken.now marks.now }
    requires below { (k : ℕ) → 1 ≤ k → k < from → is_free taken.now k ≡ false }
    ensures { IsLeastFree taken.now result }
{
    let mut number = from;
    while !is_free(marks, number) {
        number += 1;
    }
    number
}

/// Each of these layers with the number of its copy, the least that is not taken; it is taken then.
pub fn name_all(
    alloc: Global,
    taken: &mut Vec<LayerId>,
    layers: &[Layer],
) -> Result<Vec<(LayerId, LayerId)>, NoMemory>
    requires few { length taken.old.items + length layers.now ≤ 9216 }
    ensures value { IfOk result (λ names. names.items ≡ named taken.old.items layers.now) }
    ensures positive { IfOk result (λ names. All (λ (name : LayerIdValue × LayerIdValue). 0 < name.1.0) names.items) }
{
    let mut names = Vec::new(alloc);
    let mut marks = marks_of(alloc, taken)?;
    let mut from = 1u32;
    for layer in layers {
        let number = least_free(taken, &marks, from);
        let copy = LayerId(number);
        names.push((layer.number, copy))?;
        taken.push(copy)?;
        mark(&mut marks, copy);
        from = number + 1;
    }
    Ok(names)
}
