//! The points at which two lists of drawn layers have different stacks, layer by layer.
ghost use Rattle.std.specs.Prelude.{◌≡◌, ℤ, true, IfOk, OnOk};
ghost use Rattle.sf_region.specs.Points.{IsInBounds, has};
ghost use Rattle.sf_view.specs.Views.{is_in_clip};
ghost use Rattle.sf_damage.specs.inner.Comparing.{Decides, DecidesLast};
ghost use Rattle.sf_damage.specs.Damage.{AreNear, DiffersIn};

use crate::parts::{Halves, is_empty, split};
use crate::pieces::{Piece, joined, push_part, push_piece};
use crate::same::{has_same_sheet, is_same};
use sf_base::NoMemory;
use sf_region::Region;
use sf_view::Drawn;
use std::alloc::Global;
use std::mem;

/// Compares a piece of an old layer's clip with the new layers from one on: where the first of them that
/// has a point there has the same sheet, the layers above both are still to be compared.
fn compare_clip(
    alloc: Global,
    old: &Drawn,
    news: &[Drawn],
    piece: Piece,
    above: &mut Vec<Piece>,
    found: &mut Vec<Region>,
) -> Result<(), NoMemory>
    requires news { AreNear news.now }
    requires inside { (x y : ℤ) → has piece.part x y ≡ true → is_in_clip old.now x y ≡ true }
    ensures { OnOk result (Decides old.now news.now piece above.old.items found.old.items above.new.items found.new.items) }
{
    let Piece { part, from } = piece;
    let mut rest = part;
    let mut at = from;
    while at < news.len() && !is_empty(&rest) {
        let new = &news[at];
        at += 1;
        let Halves { inside, outside } = split(alloc, rest, new.clip)?;
        rest = outside;
        if has_same_sheet(old, new) {
            push_piece(above, inside, at)?;
        } else {
            push_part(found, inside)?;
        }
    }
    push_part(found, rest)
}

/// Compares a piece with an old layer and those above it, as far as that layer decides.
fn compare_layer(
    alloc: Global,
    old: &Drawn,
    news: &[Drawn],
    piece: Piece,
    above: &mut Vec<Piece>,
    found: &mut Vec<Region>,
) -> Result<(), NoMemory>
    requires old { IsInBounds old.now.clip }
    requires news { AreNear news.now }
    ensures { OnOk result (Decides old.now news.now piece above.old.items found.old.items above.new.items found.new.items) }
{
    let Piece { part, from } = piece;
    if from < news.len() && is_same(old, &news[from]) {
        return push_piece(above, part, from + 1);
    }
    let Halves { inside, outside } = split(alloc, part, old.clip)?;
    push_piece(above, outside, from)?;
    let piece = Piece { part: inside, from };
    compare_clip(alloc, old, news, piece, above, found)
}

/// Compares a piece behind the last old layer: it differs where a new layer is drawn.
fn compare_rest(
    alloc: Global,
    news: &[Drawn],
    piece: Piece,
    found: &mut Vec<Region>,
) -> Result<(), NoMemory>
    requires news { AreNear news.now }
    ensures { OnOk result (DecidesLast news.now piece found.old.items found.new.items) }
{
    let Piece { part, from } = piece;
    let mut rest = part;
    let mut at = from;
    while at < news.len() && !is_empty(&rest) {
        let new = &news[at];
        at += 1;
        let Halves { inside, outside } = split(alloc, rest, new.clip)?;
        rest = outside;
        push_part(found, inside)?;
    }
    Ok(())
}

/// The points of a part at which two lists of drawn layers, from the back, have different stacks. Old
/// layer after old layer each piece of the part is split at the clips that decide there. Layers that are
/// the same in both cost a comparison while no other lies below them, and those that a piece does not
/// meet cost no operation on regions.
pub fn differing(
    alloc: Global,
    olds: &[Drawn],
    news: &[Drawn],
    part: Region,
) -> Result<Region, NoMemory>
    requires olds { AreNear olds.now }
    requires news { AreNear news.now }
    ensures { IfOk result (DiffersIn olds.now news.now part) }
{
    let mut pieces = Vec::new(alloc);
    let mut above = Vec::new(alloc);
    let mut found = Vec::new(alloc);
    push_piece(&mut pieces, part, 0)?;
    let mut at = 0;
    while at < olds.len() {
        while let Some(piece) = pieces.pop() {
            compare_layer(alloc, &olds[at], news, piece, &mut above, &mut found)?;
        }
        mem::swap(&mut pieces, &mut above);
        at += 1;
    }
    while let Some(piece) = pieces.pop() {
        compare_rest(alloc, news, piece, &mut found)?;
    }
    joined(alloc, found)
}
