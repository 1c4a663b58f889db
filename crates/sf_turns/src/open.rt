//! Opens the table of a run: the first seat, and a stock of rights to open buffers, one for each.
ghost use Rattle.std.specs.Prelude.{◌≡◌, true, replicate, [], IfOk};
ghost use Rattle.sf_turns.specs.Counts.{range};
ghost use Rattle.sf_turns.specs.declared.protocol.Home.TheVariants.{Vacant};

use crate::protocol::Home;
use crate::seat::TurnSeat;
use crate::stamped::Stamped;
use crate::stock::Stock;
use crate::turn_table::TurnTable;
use sf_base::NoMemory;
use std::alloc::Global;
use std::sync::Arc;

/// The table of a run, which has that many buffers: its first seat, and the stock of all of them,
/// whose numbers are those below `buffers`. Its only error is out of memory.
pub fn open_turns<P: Stamped>(
    alloc: Global,
    buffers: u32,
) -> Result<(TurnSeat<P>, Stock<P>), NoMemory>
    ensures table { IfOk result (λ r. r.1.table ≡ r.0.table) }
    ensures buffers { IfOk result (λ r. r.0.table.slots ≡ buffers) }
    ensures seat { IfOk result (λ r. (r.0.is_first ≡ true) × (r.0.out ≡ 0) × (r.0.leaves ≡ []) × (r.0.seen ≡ [])) }
    ensures stock { IfOk result (λ r. r.1.buffers ≡ range 0 buffers) }
{
    let words = zeros(alloc, buffers as usize + 1)?;
    let homes = vacant(alloc, buffers as usize)?;
    let (table, mut seat) = TurnTable::open(alloc, words.as_slice(), homes, buffers)?;
    let rest = table.endow(&mut seat);
    let Ok(table) = Arc::new(alloc, table) else {
        return Err(NoMemory);
    };
    let Ok(again) = Arc::try_clone(&table) else {
        return Err(NoMemory);
    };
    let stock = Stock {
        table: again,
        seat: rest,
        from: 0,
        count: buffers,
    };
    Ok((TurnSeat { table, seat }, stock))
}

/// A row of counts at 0.
fn zeros(alloc: Global, count: usize) -> Result<Vec<u64>, NoMemory>
    ensures { IfOk result (λ v. v.items ≡ replicate count 0) }
{
    let mut row = Vec::new(alloc);
    for _ in 0..count {
        if row.push(0).is_err() {
            return Err(NoMemory);
        }
    }
    Ok(row)
}

/// Homes with no pixels.
fn vacant<P: Drop, T: Drop>(alloc: Global, count: usize) -> Result<Vec<Home<P, T>>, NoMemory>
    ensures { IfOk result (λ v. v.items ≡ replicate count Vacant) }
{
    let mut row = Vec::new(alloc);
    for _ in 0..count {
        if row.push(Home::Vacant).is_err() {
            return Err(NoMemory);
        }
    }
    Ok(row)
}
