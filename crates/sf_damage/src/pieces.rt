//! Pieces of a part that are still to be compared, and the points of several regions put together.
ghost use Rattle.std.specs.Prelude.{◌≡◌, ◌<◌, ℤ, ◌||◌, ◌⊎◌, ◌∷◌, ◌++◌, [], IfOk, OnOk, length};
ghost use Rattle.sf_region.specs.Points.{has};
ghost use Rattle.sf_damage.specs.inner.Comparing.{IsPushed, has_part};

use crate::parts::{is_empty, join};
use sf_base::NoMemory;
use sf_region::Region;
use std::alloc::Global;

// A piece of a part, and the first of the new layers that is still to be compared there.
#[derive(Drop)]
pub struct Piece {
    pub part: Region,
    pub from: usize,
}

/// Appends a piece, unless it has no point.
pub fn push_piece(pieces: &mut Vec<Piece>, part: Region, from: usize) -> Result<(), NoMemory>
    ensures { OnOk result (IsPushed part from pieces.old.items pieces.new.items) }
{
    if is_empty(&part) {
        return Ok(());
    }
    Ok(pieces.push(Piece { part, from })?)
}

/// Appends a region, unless it has no point.
pub fn push_part(parts: &mut Vec<Region>, part: Region) -> Result<(), NoMemory>
    ensures { OnOk result ((x y : ℤ) → has_part parts.new.items x y ≡ (has_part parts.old.items x y || has part x y)) }
{
    if is_empty(&part) {
        return Ok(());
    }
    Ok(parts.push(part)?)
}

/// The points of regions, two of them put together in each.
fn joined_pairs(alloc: Global, parts: Vec<Region>) -> Result<Vec<Region>, NoMemory>
    ensures points { IfOk result (λ pairs. (x y : ℤ) → has_part pairs.items x y ≡ has_part parts.items x y) }
    ensures fewer { IfOk result (λ pairs. 1 < length parts.items → length pairs.items < length parts.items) }
{
    let mut parts = parts;
    let mut pairs = Vec::new(alloc);
    while let Some(one) = parts.pop() {
        match parts.pop() {
            Some(other) => pairs.push(join(one, other)?)?,
            None => pairs.push(one)?,
        }
    }
    Ok(pairs)
}

/// The points of regions. They are put together in pairs, and those again, so that each is gone over only
/// as often as they can be halved.
pub fn joined(alloc: Global, parts: Vec<Region>) -> Result<Region, NoMemory>
    ensures { IfOk result (λ region. (x y : ℤ) → has region x y ≡ has_part parts.items x y) }
{
    let mut parts = parts;
    while parts.len() > 1 {
        parts = joined_pairs(alloc, parts)?;
    }
    match parts.pop() {
        Some(region) => Ok(region),
        None => Ok(Region::empty(alloc)),
    }
}
