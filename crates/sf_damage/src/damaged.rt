//! From the last view of a display to the next one: the points that have to be painted anew, which
//! a screen asks for before it composes.
ghost use Rattle.std.specs.Prelude.{IfOk};
ghost use Rattle.sf_damage.specs.Damage.{Damages};

use crate::windows::differing_by_windows;
use sf_base::NoMemory;
use sf_region::Region;
use sf_view::View;
use std::alloc::Global;

/// The points that have to be painted anew where one view of a display follows another: exactly
/// those at which the two have different stacks, where other layers are drawn, or the same in
/// another order, or otherwise. Everywhere else the two have the same image.
pub fn dirty(alloc: Global, old: &View, new: &View) -> Result<Region, NoMemory>
    ensures { IfOk result (Damages old.now new.now) }
{
    differing_by_windows(alloc, old.drawn.as_slice(), new.drawn.as_slice())
}
